//! A board that is played, and a sight that follows each of its states.

ghost use Rattle.std.specs.Prelude.{OnOk, ◌-◌, ◌≡◌};
ghost use Rattle.sim_play.specs.{Common.from, Common.own_turns, Common.setup_in, Common.state_in, Common.vision_after, Lines.later_of, Playing.GoesOnTo};
ghost use Rattle.sim_turn.specs.Turns.{MayPlayUntil};

use sim_base::{Global, OutOfMemory};
use sim_board::Board;
use sim_orders::OrderTable;
use sim_system::System;
use sim_turn::play;
use sim_vision::Sight;

/// Plays a board to a turn, and has a sight follow each state behind that of the board.
pub fn follow_until(
    alloc: Global,
    board: &mut Board<'_>,
    orders: &OrderTable,
    sight: &mut Sight<'_>,
    until: u32,
) -> Result<(), OutOfMemory>
    requires may { MayPlayUntil board.old until ⟦<dyn System as System>⟧ }
    requires same { sight.old.setup ≡ setup_in board.old }
    ensures followed { OnOk result (sight.new
        ≡ vision_after sight.old (later_of (setup_in board.old) (state_in board.old) (until - (state_in board.old).turn))) }
    ensures ends { GoesOnTo ⟦<dyn System as System>⟧ (from (setup_in board.old) (state_in board.old)
        (own_turns (setup_in board.old) (state_in board.old).turn (until - (state_in board.old).turn))) result board.old board.new }
{
    let begun = board.scene().state.turn;
    for number in begun..until {
        play(alloc, board, orders, number + 1)?;
        sight.follow(board.scene().state)?;
    }
    Ok(())
}
