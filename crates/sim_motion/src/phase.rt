//! The changes of the phase in which rows move.

ghost use Rattle.{sim_base.specs.{Limits.IsKnownRow, Turn.moved}, sim_motion.specs.Moves.row_moved};
ghost use Rattle.sim_plans.specs.{Plans.{goes_on as goes_on_by, IsPlanOf, move_changes_of, move_plan, step_changes}, SceneWords.Stands};
ghost use Rattle.std.specs.{Prelude.{IfOk, IsOk, IsSome, None, OnOk, Some, [], ◌++◌, ◌≡◌}, Result.ForOk};

use crate::moves::{Moved, Walker};
use sim_base::{Change, Changes, Global, Items, Motion, OutOfMemory, Row};
use sim_plans::{RowIndex, Scene, same_point, speed_of};
use sim_system::System;

/// The changes by which rows move, all by the state of the scene. They fit in order, and give the phase.
pub fn motion_changes(alloc: Global, scene: &Scene<'_>) -> Result<Changes, OutOfMemory>
    requires { Stands scene.now ⟦<dyn System as System>⟧ }
    ensures { ForOk result (λ changes. IsPlanOf scene.now.setup.now scene.now.state.now changes (moved scene.now.setup.now scene.now.state.now)) }
{
    listed_moves(alloc, scene)
}

// The changes of all rows, row by row.
fn listed_moves(alloc: Global, scene: &Scene<'_>) -> Result<Changes, OutOfMemory>
    requires { Stands scene.now ⟦<dyn System as System>⟧ }
    ensures { IfOk result (λ changes. changes ≡ move_plan scene.now.setup.now scene.now.state.now) }
{
    let rows = scene.state.rows.as_slice();
    let mut changes = Items::from_items(Vec::with_capacity(alloc, rows.len())?);
    let index = RowIndex::of(alloc, rows)?;
    for row in rows {
        push_move(alloc, &mut changes, &index, scene, row)?;
    }
    Ok(changes)
}

// The row moves, if it can.
fn push_move(
    alloc: Global,
    changes: &mut Changes,
    index: &RowIndex,
    scene: &Scene<'_>,
    row: &Row,
) -> Result<(), OutOfMemory>
    requires stands { Stands scene.now ⟦<dyn System as System>⟧ }
    requires row { IsKnownRow 0 scene.now.setup.now scene.now.state.now.rows row.now }
    ensures value { OnOk result (changes.new ≡ changes.old ++ move_changes_of scene.now.setup.now scene.now.state.now row.now) }
    ensures light { row.now.motion ≡ None → IsOk result }
{
    let Some(motion) = &row.motion else {
        return Ok(());
    };
    let Some(speed) = speed_of(scene.setup, row) else {
        return Ok(());
    };
    let budget = speed.raw().unsigned_abs() / 5;
    let new = Walker { row, budget }.moved(alloc, index, scene, motion)?;
    push_step(changes, row, new)
}

// The row comes to its new place, if it is another, and goes on.
fn push_step(changes: &mut Changes, row: &Row, new: Moved) -> Result<(), OutOfMemory>
    requires { IsSome row.now.motion }
    ensures value { OnOk result (changes.new ≡ changes.old ++ step_changes row.now (row_moved row.now new)) }
    ensures light { step_changes row.now (row_moved row.now new) ≡ [] → IsOk result }
{
    let Moved { at, motion } = new;
    if !same_point(&row.at, &at) {
        changes.push(Change::Move { id: row.id, at })?;
    }
    match motion {
        Some(motion) if !goes_on(&row.motion, &motion) => {
            changes.push(Change::Motion { id: row.id, motion })
        }
        _ => Ok(()),
    }
}

// Whether a row goes on as it went: a way that it keeps loses waypoints as it reaches them, so their number tells.
fn goes_on(before: &Option<Motion>, motion: &Motion) -> bool
    ensures { result ≡ goes_on_by before.now motion.now }
{
    match (before, motion) {
        (Some(Motion::Still), Motion::Still) => true,
        (
            Some(
                Motion::Going {
                    goal,
                    way,
                    whole: _,
                },
            ),
            Motion::Going {
                goal: to,
                way: rest,
                whole: _,
            },
        ) => same_point(goal, to) && way.as_slice().len() == rest.as_slice().len(),
        _ => false,
    }
}
