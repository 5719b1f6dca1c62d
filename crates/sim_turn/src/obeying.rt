//! One command: its changes are planned from the state as it is, and then they are made.

ghost use Rattle.{sim_base.specs.Commands.commanded, sim_board.specs.Boards.{setup_in, state_in}, sim_turn.specs.Turns.{GoesOnTo, MayObey}};

use sim_base::{Global, OutOfMemory, PlayerCommand};
use sim_board::{Board, apply_all};
use sim_orders::OrderTable;
use sim_system::System;

/// A command is obeyed.
pub fn obey(
    alloc: Global,
    board: &mut Board<'_>,
    orders: &OrderTable,
    order: &PlayerCommand,
) -> Result<(), OutOfMemory>
    requires { MayObey board.old order.now ⟦<dyn System as System>⟧ }
    ensures { GoesOnTo result (commanded (setup_in board.old) (state_in board.old) order.now) board.old board.new ⟦<dyn System as System>⟧ }
{
    let changes = orders.changes(alloc, &board.scene(), order)?;
    apply_all(board, changes)
}
