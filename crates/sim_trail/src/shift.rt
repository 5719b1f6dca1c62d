//! A change of a mark. A mark that becomes another one is gone, and the other one is born.

ghost use Rattle.std.specs.Prelude.{◌≡◌, ◌++◌, OnOk};
ghost use Rattle.sim_trail.specs.Shifts.{born, change_of, gone};

use crate::mark::Mark;
use sim_base::{Items, OutOfMemory};

/// A mark that is gone, or one that is new.
#[derive(Clone, Copy, Debug, PartialEq, Eq)]
pub enum Shift {
    Gone { mark: Mark },
    Born { mark: Mark },
}

/// Changes of marks, ascending by id. Of one entity the old mark is gone before the new one is born.
pub type Shifts = Items<Shift>;

/// Adds the changes of one entity, of which these marks are kept, if any.
pub fn push_change(
    shifts: &mut Shifts,
    old: Option<Mark>,
    new: Option<Mark>,
) -> Result<(), OutOfMemory>
    ensures { OnOk result (shifts.new ≡ shifts.old ++ change_of old new) }
{
    if old == new {
        return Ok(());
    }
    push_gone(shifts, old)?;
    push_born(shifts, new)
}

fn push_gone(shifts: &mut Shifts, old: Option<Mark>) -> Result<(), OutOfMemory>
    ensures { OnOk result (shifts.new ≡ shifts.old ++ gone old) }
{
    match old {
        Some(mark) => shifts.push(Shift::Gone { mark }),
        None => Ok(()),
    }
}

fn push_born(shifts: &mut Shifts, new: Option<Mark>) -> Result<(), OutOfMemory>
    ensures { OnOk result (shifts.new ≡ shifts.old ++ born new) }
{
    match new {
        Some(mark) => shifts.push(Shift::Born { mark }),
        None => Ok(()),
    }
}
