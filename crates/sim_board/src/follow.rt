//! A board over a list of changes: whatever is applied after a start or an adoption, its scene stands.

ghost use Rattle.{sim_base.specs.{Commands.applied_all, Limits.{IsSetup, IsValid}, Turn.first_state}, sim_board.specs.Boards.{Begins, IsWhole, MakesAll}};
ghost use Rattle.{sim_board.specs.Boards.{setup_in, state_in, systems}, sim_plans.specs.RowChanges.AllFit, sim_system.specs.Meanings.HaveKinds};

use crate::board::Board;
use sim_base::{Changes, OutOfMemory, State};
use sim_system::System;

/// Makes changes that fit in order: first the aims that keep their targets, as long as there are only such, and then the others
/// one by one. No system is built.
pub fn apply_all(board: &mut Board<'_>, changes: Changes) -> Result<(), OutOfMemory>
    requires whole { IsWhole board.old ⟦<dyn System as System>⟧ }
    requires fit { AllFit (setup_in board.old) (state_in board.old) changes }
    ensures { MakesAll result changes board.old board.new ⟦<dyn System as System>⟧ }
{
    let mut changes = changes.into_items();
    let kept = board.keep_aims(changes.as_slice());
    for at in kept..changes.len() {
        board.make(&mut changes[at])?;
    }
    Ok(())
}

/// Starts the board, and makes changes. Each system is built once, by the start.
pub fn start_and_apply(board: &mut Board<'_>, changes: Changes) -> Result<(), OutOfMemory>
    requires limits { IsSetup (setup_in board.old) }
    requires kinds { HaveKinds (systems board.old ⟦<dyn System as System>⟧) }
    requires fit { AllFit (setup_in board.old) (first_state (setup_in board.old)) changes }
    ensures { Begins result (applied_all (setup_in board.old) (first_state (setup_in board.old)) changes) board.old board.new ⟦<dyn System as System>⟧ }
{
    board.start()?;
    apply_all(board, changes)
}

/// Has the board take a state, and makes changes. Each system is built once, by the adoption.
pub fn adopt_and_apply(
    board: &mut Board<'_>,
    state: State,
    changes: Changes,
) -> Result<(), OutOfMemory>
    requires limits { IsSetup (setup_in board.old) }
    requires valid { IsValid (setup_in board.old) state }
    requires kinds { HaveKinds (systems board.old ⟦<dyn System as System>⟧) }
    requires fit { AllFit (setup_in board.old) state changes }
    ensures { Begins result (applied_all (setup_in board.old) state changes) board.old board.new ⟦<dyn System as System>⟧ }
{
    board.adopt(state)?;
    apply_all(board, changes)
}
