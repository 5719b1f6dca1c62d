//! The phases of a turn behind its commands: the changes of each are planned from the state as it is, and then they are made.

ghost use Rattle.sim_board.specs.Boards.{IsWhole, setup_in, state_in};
ghost use Rattle.{sim_plans.specs.{Plans.IsPlanOf, SceneWords.Stands}, sim_turn.specs.{Phases.phased, Turns.GoesOnTo}, std.specs.Result.ForOk};

use sim_attack::{aim_changes, gone_changes, hit_changes};
use sim_base::{Changes, Global, OutOfMemory};
use sim_board::{Board, apply_all};
use sim_motion::motion_changes;
use sim_plans::Scene;
use sim_system::System;

/// Fighters choose their targets, rows move, fighters hit, and those without health leave.
#[derive(Clone, Copy)]
pub enum Phase {
    Aim,
    Walk,
    Hit,
    Leave,
}

impl Phase {
    /// Makes the changes of the phase.
    pub fn run(self, alloc: Global, board: &mut Board<'_>) -> Result<(), OutOfMemory>
        requires { IsWhole board.old ⟦<dyn System as System>⟧ }
        ensures { GoesOnTo result (phased self (setup_in board.old) (state_in board.old)) board.old board.new ⟦<dyn System as System>⟧ }
    {
        let changes = self.changes(alloc, &board.scene())?;
        apply_all(board, changes)
    }

    // The changes of the phase, which fit in order.
    fn changes(self, alloc: Global, scene: &Scene<'_>) -> Result<Changes, OutOfMemory>
        requires { Stands scene.now ⟦<dyn System as System>⟧ }
        ensures { ForOk result (λ changes. IsPlanOf scene.now.setup.now scene.now.state.now changes (phased self scene.now.setup.now scene.now.state.now)) }
    {
        match self {
            Phase::Aim => aim_changes(alloc, scene),
            Phase::Walk => motion_changes(alloc, scene),
            Phase::Hit => hit_changes(alloc, scene),
            Phase::Leave => gone_changes(alloc, scene),
        }
    }
}
