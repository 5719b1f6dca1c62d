//! How much food and metal each player has. Good 0 is food, and good 1 is metal.

ghost use Rattle.sim_base.specs.Limits.{IsFrom};
ghost use Rattle.sim_stock.specs.{Economies.{amount_of, gained, IsRate, spent, total}, PaidTurns.{affords as affords_by, CanPay, earned, paid}};
ghost use Rattle.std.specs.Prelude.{◌+◌, ◌<◌, ◌^◌, ◌≡◌, ◌≤◌};

use crate::rate::Rate;

/// The number of food among the goods.
pub const FOOD: u8 = 0;

/// The number of metal among the goods.
pub const METAL: u8 = 1;

/// The stocks of eight players, the first player's first. Those of players whom the match does not have stay 0.
#[derive(Clone, Copy, Debug, PartialEq, Eq)]
pub struct Stocks {
    pub food: [u64; 8],
    pub metal: [u64; 8],
}

impl Stocks {
    /// How much of a good a player has.
    pub fn amount(&self, player: u8, good: u8) -> u64
        requires { IsFrom 1 8 player }
        ensures { result ≡ amount_of player good self.now }
    {
        let place = usize::from(player - 1);
        if good == FOOD {
            self.food[place]
        } else {
            self.metal[place]
        }
    }

    /// A player gets more of a good.
    pub fn gain(&mut self, player: u8, good: u8, amount: u64)
        requires player { IsFrom 1 8 player }
        requires fits { amount_of player good self.old + amount < 2 ^ 64 }
        ensures { self.new ≡ gained player good amount self.old }
    {
        let place = usize::from(player - 1);
        if good == FOOD {
            self.food[place] += amount;
        } else {
            self.metal[place] += amount;
        }
    }

    /// A player gives away some of a good.
    pub fn spend(&mut self, player: u8, good: u8, amount: u64)
        requires player { IsFrom 1 8 player }
        requires enough { amount ≤ amount_of player good self.old }
        ensures { self.new ≡ spent player good amount self.old }
    {
        let place = usize::from(player - 1);
        if good == FOOD {
            self.food[place] -= amount;
        } else {
            self.metal[place] -= amount;
        }
    }

    /// Whether a player has as much of both goods.
    pub fn affords(&self, player: u8, rate: &Rate) -> bool
        requires { IsFrom 1 8 player }
        ensures { result ≡ affords_by player rate.now self.now }
    {
        rate.food <= self.amount(player, FOOD) && rate.metal <= self.amount(player, METAL)
    }

    /// A player pays a price.
    pub fn pay(&mut self, player: u8, rate: &Rate)
        requires { CanPay player rate.now self.old }
        ensures { self.new ≡ paid player rate.now self.old }
    {
        self.spend(player, FOOD, rate.food);
        self.spend(player, METAL, rate.metal);
    }

    /// A player earns an income.
    #[tactic(auto, using(crate::proofs::Balances::food_within, crate::proofs::Balances::metal_within))]
    pub fn earn(&mut self, player: u8, rate: &Rate)
        requires player { IsFrom 1 8 player }
        requires fits { total self.old < 2 ^ 40 }
        requires few { IsRate 1000 rate.now }
        ensures { self.new ≡ earned player rate.now self.old }
    {
        self.gain(player, FOOD, rate.food);
        self.gain(player, METAL, rate.metal);
    }
}
