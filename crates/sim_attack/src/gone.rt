//! The phase in which those without health leave.

ghost use Rattle.{sim_base.specs.Turn.{gone, is_spent as is_spent_health}, sim_plans.specs.{Plans.{gone_plan, IsPlanOf}, SceneWords.Stands}};
ghost use Rattle.std.specs.{Prelude.{IfOk, ◌≡◌}, Result.ForOk};

use sim_base::{Change, Changes, Global, Items, OutOfMemory, Row, State};
use sim_plans::Scene;
use sim_system::System;

/// The changes by which every row with health 0 is removed. They fit in order, and give the phase.
pub fn gone_changes(alloc: Global, scene: &Scene<'_>) -> Result<Changes, OutOfMemory>
    requires { Stands scene.now ⟦<dyn System as System>⟧ }
    ensures { ForOk result (λ changes. IsPlanOf scene.now.setup.now scene.now.state.now changes (gone scene.now.state.now)) }
{
    removals(alloc, scene.state)
}

// The changes of all rows, row by row.
fn removals(alloc: Global, state: &State) -> Result<Changes, OutOfMemory>
    ensures { IfOk result (λ changes. changes ≡ gone_plan state.now) }
{
    let mut changes = Items::new(alloc);
    for row in state.rows.as_slice() {
        if is_spent(row) {
            changes.push(Change::Remove { id: row.id })?;
        }
    }
    Ok(changes)
}

fn is_spent(row: &Row) -> bool
    ensures { result ≡ is_spent_health row.now.health }
{
    match row.health {
        Some(health) => health.raw() <= 0,
        None => false,
    }
}
