//! A cell that a search has come to. It stands apart from the search, which keeps costs alone.

use sim_base::Cell;

/// A cell that is reached, and its cost.
#[derive(Clone, Copy)]
pub struct Reached {
    pub cell: Cell,
    pub cost: u32,
}
