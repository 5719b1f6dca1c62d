//! A line for each turn of a board.

ghost use Rattle.sim_play.specs.Common.{digest as digest_of, IsValid, setup_in, state_in, turn_line as line_of_turn};
ghost use Rattle.sim_play.specs.{Lines.end_from, Lines.turn_lines, Playing.GoesOnTo, Playing.MayGoOn};
ghost use Rattle.std.specs.Prelude.{◌++◌, ◌-◌, ◌≡◌, ◌≤◌, OnOk, string_bytes, suc};

use sim_base::{Global, OutOfMemory, Setup, State};
use sim_board::Board;
use sim_codec::digest;
use sim_orders::OrderTable;
use sim_report::push_turn;
use sim_system::System;
use sim_turn::play;

/// Appends the line of the turn at which a state stands, which begins with this word.
pub fn push_line(
    word: &str,
    setup: &Setup,
    state: &State,
    out: &mut String,
) -> Result<(), OutOfMemory>
    requires { IsValid setup.now state.now }
    ensures { OnOk result (string_bytes out.new ≡ string_bytes out.old
        ++ line_of_turn word.now state.now.turn (digest_of setup.now state.now)) }
{
    push_turn(word, state.turn, &digest(setup, state), out)
}

/// Plays a board to the last turn of its match, and appends a line for each turn from that of its state on.
pub fn push_turns(
    alloc: Global,
    board: &mut Board<'_>,
    orders: &OrderTable,
    out: &mut String,
) -> Result<(), OutOfMemory>
    requires { MayGoOn ⟦<dyn System as System>⟧ board.old }
    ensures text { OnOk result (string_bytes out.new ≡ string_bytes out.old
        ++ turn_lines (setup_in board.old) (state_in board.old) (state_in board.old).turn (suc ((setup_in board.old).turns - (state_in board.old).turn))) }
    ensures ends { GoesOnTo ⟦<dyn System as System>⟧ (end_from (setup_in board.old) (state_in board.old)) result board.old board.new }
{
    let setup = board.setup();
    let first = board.scene().state.turn;
    push_line("turn", setup, board.scene().state, out)?;
    for turn in first..setup.turns {
        play(alloc, board, orders, turn + 1)?;
        push_line("turn", setup, board.scene().state, out)?;
    }
    Ok(())
}
