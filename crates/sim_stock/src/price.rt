//! What a command costs.

ghost use Rattle.std.specs.Prelude.{◌≡◌};
ghost use Rattle.sim_stock.specs.PaidTurns.{price_of as price_by};

use crate::rate::{Rate, rate_at};
use sim_base::Command;

/// The price of a command: to place or to train costs what the template that it names does, and nothing where there is no
/// such template; all else is free.
pub fn price_of(prices: &[Rate], command: &Command) -> Rate
    ensures { result ≡ price_by prices.now command.now }
{
    match command {
        Command::Place { template, .. } | Command::Train { template, .. } => {
            rate_at(prices, usize::from(*template))
        }
        _ => Rate { food: 0, metal: 0 },
    }
}
