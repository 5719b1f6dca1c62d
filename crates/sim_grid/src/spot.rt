//! A cell that knows its place, so that whoever goes from it to its neighbours reckons theirs by one sum each. It stands apart
//! from the grid, whose contracts speak of it.

use sim_base::Cell;

/// A cell, and where it stands in a list of a ground's cells by z, then x.
#[derive(Clone, Copy)]
pub struct Spot {
    pub cell: Cell,
    pub place: usize,
}
