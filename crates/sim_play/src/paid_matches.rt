//! A whole match with an economy. The systems of a rig play it, which is handed back.

ghost use Rattle.std.specs.Prelude.{IfOk, string_bytes, ◌≡◌};
ghost use Rattle.sim_play.specs.{Common.IsEconomy, Common.systems_of, Paid.paid_state, Paid.stock_text as text_of_stocks, Playing.HasPlayed, Playing.MayBegin};

use crate::balances::push_stocks;
use crate::market::start_lines;
use sim_base::{OutOfMemory, Setup};
use sim_board::Board;
use sim_stock::Market;
use sim_system::{Rig, System};

/// The lines of a whole match, and of what each player has in the end. The rig comes back; where there was memory, it stands
/// for the last state.
pub fn stock_text(
    market: &Market<'_>,
    setup: &Setup,
    rig: Rig,
) -> (Result<String, OutOfMemory>, Rig)
    requires begins { MayBegin setup.now (systems_of rig ⟦<dyn System as System>⟧) }
    requires economy { IsEconomy setup.now market.now.economy.now }
    ensures text { IfOk result.0 (λ text. string_bytes text ≡ text_of_stocks setup.now market.now.economy.now) }
    ensures played { HasPlayed ⟦<dyn System as System>⟧ setup.now (paid_state setup.now market.now.economy.now setup.now.turns) result.0 rig result.1 }
{
    let mut board = Board::new(market.alloc, setup, rig);
    let mut text = String::new(market.alloc);
    let played = start_lines(market, &mut board, &mut text);
    let (_, rig) = board.finish();
    let told = match played {
        Ok(stocks) => push_stocks(setup.players, &stocks, &mut text),
        Err(error) => Err(error),
    };
    match told {
        Ok(()) => (Ok(text), rig),
        Err(error) => (Err(error), rig),
    }
}
