//! The paid turns of a match, with a line for each.

ghost use Rattle.sim_play.specs.Common.{books_of, IsEconomy, orders_at, paid_turn as paid_turn_by, setup_in, state_in, systems, total};
ghost use Rattle.{sim_play.specs.{Paid.{paid_lines, paid_state, paid_stocks}, Playing.{ComesTo, MayBegin, MayGoOn}}, sim_stock.specs.PaidTurns.PaysTo};
ghost use Rattle.std.specs.Prelude.{IfOk, OnOk, string_bytes, suc, ◌++◌, ◌+◌, ◌<◌, ◌^◌, ◌≡◌};

use crate::due::commands_of;
use crate::lines::push_line;
use sim_base::OutOfMemory;
use sim_board::Board;
use sim_stock::{Market, Stocks};
use sim_system::System;
use sim_turn::due_at;

/// Starts a board and plays it to the last turn of its match, appends a line for each turn, and gives the stocks in the end.
pub fn start_lines(
    market: &Market<'_>,
    board: &mut Board<'_>,
    out: &mut String,
) -> Result<Stocks, OutOfMemory>
    requires begins { MayBegin (setup_in board.old) (systems board.old ⟦<dyn System as System>⟧) }
    requires economy { IsEconomy (setup_in board.old) market.now.economy.now }
    ensures stocks { IfOk result (λ stocks. stocks ≡ paid_stocks (setup_in board.old) market.now.economy.now (setup_in board.old).turns) }
    ensures text { OnOk result (string_bytes out.new ≡ string_bytes out.old
        ++ paid_lines (setup_in board.old) market.now.economy.now (suc (setup_in board.old).turns)) }
    ensures ends { ComesTo ⟦<dyn System as System>⟧ (paid_state (setup_in board.old) market.now.economy.now (setup_in board.old).turns) result board.old
        board.new }
{
    board.start()?;
    let setup = board.setup();
    let mut stocks = market.economy.start;
    push_line("turn", setup, board.scene().state, out)?;
    for turn in 0..setup.turns {
        play_turn(market, board, &mut stocks, turn + 1)?;
        push_line("turn", setup, board.scene().state, out)?;
    }
    Ok(stocks)
}

// Plays the turn of this number with the match's own commands.
fn play_turn(
    market: &Market<'_>,
    board: &mut Board<'_>,
    stocks: &mut Stocks,
    number: u32,
) -> Result<(), OutOfMemory>
    requires goes_on { MayGoOn ⟦<dyn System as System>⟧ board.old }
    requires below { (state_in board.old).turn < (setup_in board.old).turns }
    requires number { number ≡ (state_in board.old).turn + 1 }
    requires economy { IsEconomy (setup_in board.old) market.now.economy.now }
    requires total { total stocks.old + 8192000 < 2 ^ 40 }
    ensures { PaysTo result (paid_turn_by (setup_in board.old) market.now.economy.now (books_of (state_in board.old) stocks.old)
        (orders_at number (setup_in board.old).commands)) board.old board.new stocks.old stocks.new ⟦<dyn System as System>⟧ }
{
    let setup = board.setup();
    let due = due_at(setup.commands.as_slice(), number);
    let commands = commands_of(market.alloc, due)?;
    market.paid_turn(board, stocks, &commands)
}
