//! A section: a tag, the number of its rows, and the rows. Written once for all forms.

ghost use Rattle.{sim_base.specs.Spelling.section, sim_bytes.specs.{Reading.Reads, Rows.HasShortWay, Telling.Tells, Walking.{row_if, section_at, Skips}}};
ghost use Rattle.std.specs.{List.{filter_map, flat_map}, Prelude.{All, length, OnOk, ◌<◌, ◌^◌, ◌≡◌, ◌≤◌}};

use crate::form::RowForm;
use crate::{ByteSink, Short, Take, tell_u8, tell_u32};
use sim_base::Row;

// How many rows have this part.
fn count<'a, R: RowForm<'a>>(rows: &'a [Row]) -> usize
    ensures value { result ≡ length (filter_map R.in_row rows.now) }
    ensures few { result ≤ length rows.now }
{
    let mut found = 0usize;
    for row in rows {
        if R::is_in(row) {
            found += 1;
        }
    }
    found
}

// Tells the rows that have this part.
fn tell_rows<'a, K: ByteSink, R: RowForm<'a>>(out: &mut K, rows: &'a [Row]) -> Result<(), K::Fault>
    requires { All HasShortWay rows.now }
    ensures { OnOk result (Tells K.holds out.old out.new (flat_map R.spelled (filter_map R.in_row rows.now))) }
{
    for row in rows {
        if let Some(found) = R::of(row) {
            found.tell(out)?;
        }
    }
    Ok(())
}

/// Tells the section of the rows that have this part.
pub fn tell_section<'a, K: ByteSink, R: RowForm<'a>>(
    out: &mut K,
    rows: &'a [Row],
) -> Result<(), K::Fault>
    requires short { All HasShortWay rows.now }
    requires few { length rows.now < 2 ^ 32 }
    ensures { OnOk result (Tells K.holds out.old out.new (section R.TAG R.spelled (filter_map R.in_row rows.now))) }
{
    let found = count::<R>(rows) as u32;
    tell_u8(out, R::tag())?;
    tell_u32(out, found)?;
    if found == 0 {
        return Ok(());
    }
    tell_rows::<K, R>(out, rows)
}

// Passes over so many rows.
fn skip<'a, R: RowForm<'a>>(from: &mut Take<'a>, count: u32) -> Result<(), Short>
    ensures { Skips R.row_at count from.old result from.new }
{
    for _ in 0..count {
        let _ = R::take(from)?;
    }
    Ok(())
}

/// Passes over a section: how many rows it has, and a reader at the first of them.
#[tactic(auto, unfolding(crate::specs::Walking::section_at))]
pub fn open_section<'a, R: RowForm<'a>>(from: &mut Take<'a>) -> Result<(u32, Take<'a>), Short>
    ensures { Reads (section_at R.TAG R.row_at) from.old result from.new }
{
    let tag = from.u8()?;
    if tag != R::tag() {
        return Err(Short);
    }
    let count = from.u32()?;
    let start = from.fork();
    skip::<R>(from, count)?;
    Ok((count, start))
}

/// Takes the next row, if one is wanted.
#[tactic(auto, unfolding(crate::specs::Walking::row_if))]
pub fn take_if<'a, R: RowForm<'a>>(from: &mut Take<'a>, wanted: bool) -> Result<Option<R>, Short>
    ensures { Reads (row_if R.row_at wanted) from.old result from.new }
{
    if wanted {
        Ok(Some(R::take(from)?))
    } else {
        Ok(None)
    }
}
