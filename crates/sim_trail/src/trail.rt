//! The marks of the last state that was followed.

ghost use Rattle.sim_base.specs.Rows.{id_of};
ghost use Rattle.sim_trail.specs.Shifts.{IsAscending, IsPlacedRow, mark_of as mark_of_row, marks_of as marks_of_state, shifts_between as shifts_from_to};
ghost use Rattle.std.specs.{List.Sorted.IsStrictlyIncreasing, Prelude.{All, IfOk, IsOk, IsTrue, map, OnErr, OnOk, [], ◌≡◌}};

use crate::mark::{Mark, mark_of};
use crate::merge::shifts_between;
use crate::shift::Shifts;
use sim_base::{Global, Items, OutOfMemory, Row, State};
use std::marker::Model;

/// The marks of a state. Contracts see them as a list.
#[derive(Debug, Drop)]
pub struct Trail {
    alloc: Global,
    marks: Vec<Mark>,
}

impl Model for Trail {
    ghost use Rattle.{sim_trail.specs.{declared.mark.Mark.Mark, Shifts.IsAscending}, std.specs.Prelude.List};

    ghost Value = { List Mark };

    ghost view = { λ trail. trail.marks.items };

    ghost invariant = { λ trail. IsAscending trail.marks.items };
}

impl Trail {
    /// No marks. It keeps the allocator, and takes no memory yet.
    pub fn new(alloc: Global) -> Trail
        ensures { result ≡ [] }
    {
        Trail {
            alloc,
            marks: Vec::new(alloc),
        }
    }

    /// Takes the marks of a state, and answers how they differ from those before, ascending by id. The points of the rows
    /// lie on the largest ground. Where the marks are those before, no memory is wanted.
    pub fn follow(&mut self, state: &State) -> Result<Shifts, OutOfMemory>
        requires ascending { IsStrictlyIncreasing (map id_of state.now.rows) }
        requires placed { All IsPlacedRow state.now.rows }
        ensures shifts { IfOk result (λ shifts. shifts ≡ shifts_from_to self.old (marks_of_state state.now)) }
        ensures marks { OnOk result (self.new ≡ marks_of_state state.now) }
        ensures ascending { IsAscending self.old }
        ensures unchanged { OnErr result (self.new ≡ self.old) }
        ensures light { self.old ≡ marks_of_state state.now → IsOk result }
    {
        let rows = state.rows.as_slice();
        if are_marks_of(self.marks.as_slice(), rows) {
            return Ok(Items::new(self.alloc));
        }
        let marks = marks_of(self.alloc, rows)?;
        let shifts = shifts_between(self.alloc, self.marks.as_slice(), marks.as_slice())?;
        self.marks = marks;
        Ok(shifts)
    }

    /// Lends the marks, ascending by id.
    pub fn marks(&self) -> &[Mark]
        ensures marks { result.now ≡ self.now }
        ensures ascending { IsAscending self.now }
    {
        self.marks.as_slice()
    }
}

// Whether these are the marks of these rows. In most turns they are, and then no memory is taken.
fn are_marks_of(marks: &[Mark], rows: &[Row]) -> bool
    requires { All IsPlacedRow rows.now }
    ensures same { IsTrue result → marks.now ≡ map mark_of_row rows.now }
    ensures others { marks.now ≡ map mark_of_row rows.now → IsTrue result }
{
    if marks.len() != rows.len() {
        return false;
    }
    for at in 0..rows.len() {
        if marks[at] != mark_of(&rows[at]) {
            return false;
        }
    }
    true
}

// The marks of these rows.
fn marks_of(alloc: Global, rows: &[Row]) -> Result<Vec<Mark>, OutOfMemory>
    requires { All IsPlacedRow rows.now }
    ensures { IfOk result (λ marks. marks.items ≡ map mark_of_row rows.now) }
{
    let mut marks = Vec::with_capacity(alloc, rows.len())?;
    for row in rows {
        marks.push(mark_of(row))?;
    }
    Ok(marks)
}
