//! What a trail keeps of a row. An entity that moves within a cell, is hurt or takes a target keeps its mark.

ghost use Rattle.std.specs.Prelude.{◌≡◌};
ghost use Rattle.{sim_base.specs.Places.IsPlaced, sim_trail.specs.Shifts.mark_of as mark_of_row};

use sim_base::{Cell, Items, Row, cell_of};

/// An entity: its id, the cell in which it stands, its owner, and the number of its template.
#[derive(Clone, Copy, Debug, PartialEq, Eq)]
pub struct Mark {
    pub id: u32,
    pub cell: Cell,
    pub owner: u8,
    pub template: u16,
}

/// The marks of a state, ascending by id.
pub type Marks = Items<Mark>;

/// The mark of a row.
pub fn mark_of(row: &Row) -> Mark
    requires { IsPlaced row.now.at }
    ensures { result ≡ mark_of_row row.now }
{
    Mark {
        id: row.id,
        cell: cell_of(row.at),
        owner: row.owner,
        template: row.template,
    }
}
