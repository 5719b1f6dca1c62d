//! What is known of the cost from a cell on, and where a search goes. The search takes cells by their cost and this estimate.

ghost use Rattle.std.specs.Prelude.{◌≡◌, ℕ, ◌^◌, ◌<◌};
ghost use Rattle.sim_search.specs.{Common.Cell, Estimates.estimate_to};

use sim_base::Cell;
use sim_grid::octile;

/// An estimate of the cost from a cell on. A search is handed one that guides it.
pub trait Guide: Copy {
    /// The estimate for each cell.
    ghost estimate_of: { Self → Cell → ℕ };

    /// The estimate for a cell.
    fn estimate(self, cell: Cell) -> u32
        ensures is { result ≡ estimate_of self cell }
        ensures small { result < 2 ^ 24 };
}

/// Where a search goes: to the cells that are so near to the goal, by the octile distance, which is 10 for a straight step and
/// 14 for a diagonal one. The estimate is how much further a cell is from the goal, rounded down to an even number, and 0 where
/// it is no further.
#[derive(Clone, Copy)]
pub struct Aim {
    pub goal: Cell,
    pub near: u32,
}

impl Guide for Aim {
    ghost use Rattle.sim_search.specs.Estimates.{estimate_to};

    ghost estimate_of = { estimate_to };

    fn estimate(self, cell: Cell) -> u32 {
        octile(cell, self.goal).saturating_sub(self.near) / 2 * 2
    }
}

/// No cell is further than another: a search by this goes everywhere alike.
#[derive(Clone, Copy)]
pub struct Nowhere {}

impl Guide for Nowhere {
    ghost use Rattle.sim_search.specs.Estimates.{nothing_left};

    ghost estimate_of = { nothing_left };

    fn estimate(self, _cell: Cell) -> u32 {
        0
    }
}
