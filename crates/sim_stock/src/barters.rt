//! The handler of barters: an amount of a good is given up for four fifths of it of the other good.

ghost use Rattle.std.specs.Prelude.{◌≡◌};
ghost use Rattle.sim_stock.specs.PaidTurns.{deed as deed_of, IsAsked};

use crate::{Deed, Stocks};

/// The stocks after a barter. Where the player lacks the amount, they stay as they are.
pub fn barter(stocks: &Stocks, player: u8, deed: &Deed) -> Stocks
    requires { IsAsked 2 stocks.now player deed.now }
    ensures { result ≡ deed_of stocks.now player deed.now }
{
    let Deed::Barter { good, amount } = *deed else {
        unreachable!()
    };
    let mut left = *stocks;
    if amount <= stocks.amount(player, good) {
        left.spend(player, good, amount);
        left.gain(player, 1 - good, amount * 4 / 5);
    }
    left
}
