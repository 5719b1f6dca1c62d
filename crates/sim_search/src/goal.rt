//! How far all cells of a ground are from one goal.

ghost use Rattle.{sim_grid.specs.Grids.is_open_at, sim_search.specs.{Common.{field_of_grid, IsOnGround}, Rows.{AreDistances, number_in, size_about}}};
ghost use Rattle.std.specs.Prelude.{IfOk, true, ◌≡◌};

use crate::distances::Distances;
use crate::drain::search_all;
use crate::search::Search;
use sim_base::{Cell, Global, OutOfMemory};
use sim_grid::Grid;

/// How far the cells of a grid are from a goal, in the rooms of an earlier search, where they fit. They can be used again.
pub fn distances_to(
    alloc: Global,
    grid: &Grid,
    rooms: &mut Option<Search>,
    goal: Cell,
) -> Result<Distances, OutOfMemory>
    requires on { IsOnGround grid.now.size goal }
    requires is_open { is_open_at grid.now goal ≡ true }
    ensures goal { IfOk result (λ d. d.goal ≡ goal) }
    ensures size { IfOk result (λ d. size_about d ≡ grid.now.size) }
    ensures distances { IfOk result (λ d. AreDistances (field_of_grid grid.now) goal (number_in d)) }
{
    let search = search_all(alloc, grid, rooms.take(), goal)?;
    let distances = Distances::of(alloc, &search.costs, goal)?;
    *rooms = Some(search);
    Ok(distances)
}
