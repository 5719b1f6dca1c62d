//! The changes between two lists of marks: one pass over both, which ascend by id.

ghost use Rattle.std.specs.Prelude.{IfOk, ◌≡◌};
ghost use Rattle.sim_trail.specs.Merge.{behind as marks_behind, first_of as first_mark_of, next_id as next_id_of};
ghost use Rattle.sim_trail.specs.Shifts.{IsAscending, shifts_between as shifts_from_to};

use crate::mark::Mark;
use crate::shift::{Shifts, push_change};
use sim_base::{Global, Items, OutOfMemory};

// The id that comes next in either list.
fn next_id(olds: &[Mark], news: &[Mark]) -> Option<u32>
    ensures { result ≡ next_id_of olds.now news.now }
{
    match (olds, news) {
        ([], []) => None,
        ([old, ..], []) => Some(old.id),
        ([], [new, ..]) => Some(new.id),
        ([old, ..], [new, ..]) => Some(old.id.min(new.id)),
    }
}

// The first mark, if it has this id.
fn first_of(id: u32, marks: &[Mark]) -> Option<Mark>
    ensures { result ≡ first_mark_of id marks.now }
{
    match marks {
        [mark, ..] if mark.id == id => Some(*mark),
        _ => None,
    }
}

// The marks behind the first, if that has this id.
fn behind(id: u32, marks: &[Mark]) -> &[Mark]
    ensures { result.now ≡ marks_behind id marks.now }
{
    match marks {
        [mark, more @ ..] if mark.id == id => more,
        _ => marks,
    }
}

/// The changes that make the new marks of the old ones.
pub fn shifts_between(alloc: Global, olds: &[Mark], news: &[Mark]) -> Result<Shifts, OutOfMemory>
    requires olds { IsAscending olds.now }
    requires news { IsAscending news.now }
    ensures { IfOk result (λ shifts. shifts ≡ shifts_from_to olds.now news.now) }
{
    let mut shifts = Items::new(alloc);
    let mut olds = olds;
    let mut news = news;
    'ids: while let Some(id) = next_id(olds, news) {
        push_change(&mut shifts, first_of(id, olds), first_of(id, news))?;
        olds = behind(id, olds);
        news = behind(id, news);
    }
    Ok(shifts)
}
