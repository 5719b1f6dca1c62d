//! The changes of one row, added to a list. A part that has its value already is not set again.

ghost use Rattle.std.specs.Prelude.{OnOk, ◌++◌, ◌≡◌};
ghost use Rattle.sim_plans.specs.Plans.{halt_changes, stance_changes, stand_changes, target_changes, turn_changes};

use sim_base::{Aim, Change, Changes, Motion, OutOfMemory, Row};

/// The row takes a target, 0 for none, if it can attack and has another one.
pub fn push_target(changes: &mut Changes, target: u32, row: &Row) -> Result<(), OutOfMemory>
    ensures { OnOk result (changes.new ≡ changes.old ++ target_changes target row.now.id row.now.attack) }
{
    match row.attack {
        Some(aim) if aim.target != target => {
            let aim = Aim { target, ..aim };
            changes.push(Change::Attack { id: row.id, aim })
        }
        _ => Ok(()),
    }
}

/// The row stands still, if it goes.
pub fn push_halt(changes: &mut Changes, row: &Row) -> Result<(), OutOfMemory>
    ensures { OnOk result (changes.new ≡ changes.old ++ halt_changes row.now.id row.now.motion) }
{
    match &row.motion {
        Some(Motion::Going { .. }) => changes.push(Change::Motion {
            id: row.id,
            motion: Motion::Still,
        }),
        _ => Ok(()),
    }
}

/// The row takes a target, 0 for none, and stands still. Whether it holds its place stays as it was.
pub fn push_turn(changes: &mut Changes, target: u32, row: &Row) -> Result<(), OutOfMemory>
    ensures { OnOk result (changes.new ≡ changes.old ++ turn_changes target row.now) }
{
    push_target(changes, target, row)?;
    push_halt(changes, row)
}

/// The row takes a target, 0 for none, and from now on holds its place or does not, if it can attack and either is new.
pub fn push_stance(
    changes: &mut Changes,
    target: u32,
    hold: bool,
    row: &Row,
) -> Result<(), OutOfMemory>
    ensures { OnOk result (changes.new ≡ changes.old ++ stance_changes target hold row.now.id row.now.attack) }
{
    match row.attack {
        Some(aim) if aim.target != target || aim.hold != hold => {
            let aim = Aim {
                target,
                hold,
                ..aim
            };
            changes.push(Change::Attack { id: row.id, aim })
        }
        _ => Ok(()),
    }
}

/// The row takes a target, 0 for none, holds its place from now on or does not, and stands still.
pub fn push_stand(
    changes: &mut Changes,
    target: u32,
    hold: bool,
    row: &Row,
) -> Result<(), OutOfMemory>
    ensures { OnOk result (changes.new ≡ changes.old ++ stand_changes target hold row.now) }
{
    push_stance(changes, target, hold, row)?;
    push_halt(changes, row)
}
