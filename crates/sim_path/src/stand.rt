//! Where a walk stands. It stands apart from the steps that are looked for there, whose contracts speak of it.

use sim_grid::Spot;

/// A cell that a walk has come to, the steps that are allowed from it, and what a cost or a distance tells of it.
#[derive(Clone, Copy)]
pub struct Stand {
    pub spot: Spot,
    pub moves: u8,
    pub cost: u32,
}
