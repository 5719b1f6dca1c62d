//! What a player does with his stocks, and when. A deed moves goods and touches no entity.

ghost use Rattle.std.specs.Prelude.{◌<◌, ◌≡◌, ◌≤◌};
ghost use Rattle.sim_stock.specs.PaidTurns.{kind_of};

use sim_base::Items;

/// What is done with an amount of a good, which is 0 for food and 1 for metal: it is given to
/// another player, or given up for four fifths of it of the other good.
#[derive(Clone, Copy, Debug, PartialEq, Eq)]
pub enum Deed {
    Tribute { other: u8, good: u8, amount: u64 },
    Barter { good: u8, amount: u64 },
}

impl Deed {
    /// The number of its kind: 1 for a tribute, 2 for a barter.
    pub fn kind(&self) -> u8
        ensures value { result ≡ kind_of self.now }
        ensures from_one { 0 < result }
        ensures to_last { result ≤ 2 }
    {
        match self {
            Deed::Tribute { .. } => 1,
            Deed::Barter { .. } => 2,
        }
    }
}

/// A deed, the player whose it is, and the turn in which he does it.
#[derive(Clone, Copy, Debug, PartialEq, Eq)]
pub struct DatedDeed {
    pub turn: u32,
    pub player: u8,
    pub deed: Deed,
}

/// Deeds, in the order in which they are done.
pub type DatedDeeds = Items<DatedDeed>;
