//! The handlers of deeds that the program registers. They stand here since a handler is a function of the crate that stores it.

ghost use Rattle.std.specs.Prelude.{◌≡◌};
ghost use Rattle.sim_stock.specs.PaidTurns.{deed as deed_of, IsAsked};

use sim_stock::{Deed, Stocks, barter, tribute};

/// The stocks after a tribute.
pub fn tributed(stocks: &Stocks, player: u8, deed: &Deed) -> Stocks
    requires { IsAsked 1 stocks.now player deed.now }
    ensures { result ≡ deed_of stocks.now player deed.now }
{
    tribute(stocks, player, deed)
}

/// The stocks after a barter.
pub fn bartered(stocks: &Stocks, player: u8, deed: &Deed) -> Stocks
    requires { IsAsked 2 stocks.now player deed.now }
    ensures { result ≡ deed_of stocks.now player deed.now }
{
    barter(stocks, player, deed)
}
