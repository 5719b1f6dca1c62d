//! Turns with the match's own commands.

ghost use Rattle.sim_base.specs.{Commands.commanded, declared.setup.Timed.Timed as AnyTimed, Turn.{from, own_turns}};
ghost use Rattle.{sim_board.specs.Boards.{setup_in, state_in}, sim_turn.specs.Turns.{GoesOnTo, MayObeyAll, MayPlayUntil, PlaysTo}};
ghost use Rattle.std.specs.Prelude.{fold, map, ◌-◌};

use crate::{due_at, obey, run_phases};
use sim_base::{Global, OutOfMemory, Timed};
use sim_board::Board;
use sim_orders::OrderTable;
use sim_system::System;

/// Plays turns with the match's own commands, until the state has come to a turn. After an error the board may only be
/// finished.
pub fn play(
    alloc: Global,
    board: &mut Board<'_>,
    orders: &OrderTable,
    until: u32,
) -> Result<(), OutOfMemory>
    requires { MayPlayUntil board.old until ⟦<dyn System as System>⟧ }
    ensures { PlaysTo result (from (setup_in board.old) (state_in board.old)
        (own_turns (setup_in board.old) (state_in board.old).turn (until - (state_in board.old).turn))) board.old board.new ⟦<dyn System as System>⟧ }
{
    let setup = board.setup();
    let commands = setup.commands.as_slice();
    let first = board.scene().state.turn;
    for number in first..until {
        obey_due(alloc, board, orders, due_at(commands, number + 1))?;
        run_phases(alloc, board)?;
    }
    Ok(())
}

// The commands that are due are obeyed in order.
fn obey_due(
    alloc: Global,
    board: &mut Board<'_>,
    orders: &OrderTable,
    due: &[Timed],
) -> Result<(), OutOfMemory>
    requires { MayObeyAll board.old (map (λ (timed : AnyTimed). timed.order) due.now) ⟦<dyn System as System>⟧ }
    ensures { GoesOnTo result (fold (commanded (setup_in board.old)) (state_in board.old) (map (λ (timed : AnyTimed). timed.order) due.now))
        board.old board.new ⟦<dyn System as System>⟧ }
{
    for timed in due {
        obey(alloc, board, orders, &timed.order)?;
    }
    Ok(())
}
