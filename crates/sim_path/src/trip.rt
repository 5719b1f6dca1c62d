//! The first cells of a way, as many as an answer has points. They are the same for all points of the two cells between which it leads.

ghost use Rattle.std.specs.Prelude.{◌≡◌, length, nat_le, take};

use sim_base::{Cell, MAX_WAYPOINTS};

/// The first cells of a way from its start on, and whether these are all.
#[derive(Clone, Copy)]
pub struct Trip<'a> {
    pub cells: &'a [Cell],
    pub whole: bool,
}

/// The first of these cells.
pub fn trip_of(cells: &[Cell]) -> Trip<'_>
    ensures cells { result.cells.now ≡ take 64 cells.now }
    ensures whole { result.whole ≡ nat_le (length cells.now) 64 }
{
    Trip {
        cells: &cells[..cells.len().min(MAX_WAYPOINTS)],
        whole: cells.len() <= MAX_WAYPOINTS,
    }
}
