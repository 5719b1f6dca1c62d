//! What a search is asked. It stands apart from the calls that answer it, whose contracts speak of it.

ghost use Rattle.{sim_base.specs.Places.IsOnGround, sim_grid.specs.Grids.IsGroundSize};

use sim_base::Cell;
use sim_grid::Grid;

/// Over which cells a way is asked, from which cell to which, and where it can end: in cells that are so near to the goal.
#[derive(Clone, Copy)]
pub struct Question<'a> {
    pub grid: &'a Grid,
    pub start: Cell,
    pub goal: Cell,
    pub near: u32,
    pub ends: &'a [Cell],
    ghost ground: { IsGroundSize grid.now.size },
    ghost start_on: { IsOnGround grid.now.size start },
    ghost goal_on: { IsOnGround grid.now.size goal },
}
