//! The estimate of a search that knows how far each cell is from its goal.

use crate::aim::Guide;
use crate::distances::Distances;
use sim_base::Cell;

/// How far the cells are from the goal of a search.
#[derive(Clone, Copy)]
pub struct Toward<'a> {
    pub distances: &'a Distances,
}

impl<'a> Guide for Toward<'a> {
    ghost use Rattle.sim_search.specs.Rows.{estimate_toward};

    ghost estimate_of = { estimate_toward };

    #[inline(always)]
    fn estimate(self, cell: Cell) -> u32 {
        2 * u32::from(self.distances.at(cell))
    }
}
