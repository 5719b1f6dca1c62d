//! A turn with its commands.

ghost use Rattle.{sim_base.specs.{Commands.commanded, Turn.{aimed, gone, hit, moved, turn as turn_by}}, sim_board.specs.Boards.{IsWhole, setup_in, state_in}};
ghost use Rattle.{sim_turn.specs.Turns.{GoesOnTo, MayEndTurn, MayObeyAll, MayPlay, PlaysTo}, std.specs.Prelude.{fold, []}};

use crate::obeying::obey;
use crate::phase::Phase;
use crate::rest::all_rest;
use sim_base::{Change, Global, OutOfMemory, PlayerCommand};
use sim_board::Board;
use sim_orders::OrderTable;
use sim_system::System;

/// Plays a turn with these commands, each of a player of the match. After an error the board may only be finished.
pub fn turn(
    alloc: Global,
    board: &mut Board<'_>,
    orders: &OrderTable,
    commands: &[PlayerCommand],
) -> Result<(), OutOfMemory>
    requires { MayPlay board.old commands.now ⟦<dyn System as System>⟧ }
    ensures { PlaysTo result (turn_by (setup_in board.old) (state_in board.old) commands.now) board.old board.new ⟦<dyn System as System>⟧ }
{
    obey_all(alloc, board, orders, commands)?;
    run_phases(alloc, board)
}

// The commands are obeyed in order.
fn obey_all(
    alloc: Global,
    board: &mut Board<'_>,
    orders: &OrderTable,
    commands: &[PlayerCommand],
) -> Result<(), OutOfMemory>
    requires { MayObeyAll board.old commands.now ⟦<dyn System as System>⟧ }
    ensures { GoesOnTo result (fold (commanded (setup_in board.old)) (state_in board.old) commands.now) board.old board.new ⟦<dyn System as System>⟧ }
{
    for order in commands {
        obey(alloc, board, orders, order)?;
    }
    Ok(())
}

/// Runs the phases behind the commands of a turn, and counts it.
pub fn run_phases(alloc: Global, board: &mut Board<'_>) -> Result<(), OutOfMemory>
    requires { MayEndTurn board.old ⟦<dyn System as System>⟧ }
    ensures { GoesOnTo result (turn_by (setup_in board.old) (state_in board.old) []) board.old board.new ⟦<dyn System as System>⟧ }
{
    act(alloc, board)?;
    board.apply(Change::Tick)
}

// The phases. Where nobody can act they leave the state as it is, so they are passed over.
fn act(alloc: Global, board: &mut Board<'_>) -> Result<(), OutOfMemory>
    requires { IsWhole board.old ⟦<dyn System as System>⟧ }
    ensures { GoesOnTo result (gone (hit (setup_in board.old) (moved (setup_in board.old) (aimed (setup_in board.old) (state_in board.old)))))
        board.old board.new ⟦<dyn System as System>⟧ }
{
    if all_rest(board.scene().state.rows.as_slice()) {
        return Ok(());
    }
    Phase::Aim.run(alloc, board)?;
    Phase::Walk.run(alloc, board)?;
    Phase::Hit.run(alloc, board)?;
    Phase::Leave.run(alloc, board)
}
