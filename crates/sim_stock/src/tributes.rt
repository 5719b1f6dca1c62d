//! The handler of tributes: an amount of a good goes to another player.

ghost use Rattle.std.specs.Prelude.{◌≡◌};
ghost use Rattle.sim_stock.specs.PaidTurns.{deed as deed_of, IsAsked};

use crate::{Deed, Stocks};

/// The stocks after a tribute. Where the player lacks the amount, they stay as they are.
pub fn tribute(stocks: &Stocks, player: u8, deed: &Deed) -> Stocks
    requires { IsAsked 1 stocks.now player deed.now }
    ensures { result ≡ deed_of stocks.now player deed.now }
{
    let Deed::Tribute {
        other,
        good,
        amount,
    } = *deed
    else {
        unreachable!()
    };
    let mut left = *stocks;
    if amount <= stocks.amount(player, good) {
        left.spend(player, good, amount);
        left.gain(other, good, amount);
    }
    left
}
