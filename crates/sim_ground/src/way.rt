//! Ways over the open cells, in the rooms of searches.

ghost use Rattle.std.specs.Prelude.{IfOk, IsTrue, ◌≡◌};
ghost use Rattle.sim_search.specs.Floods.{AreLabels, label_in};
ghost use Rattle.{sim_base.specs.Places.is_inside, sim_base.specs.Ways.way_of, sim_grid.specs.Grids.field_of_grid, sim_path.specs.Answers.way_in};

use crate::opened::Opened;
use crate::rooms::Rooms;
use sim_base::{Global, OutOfMemory, Point};
use sim_system::Way;

/// The way from a point to another over the open cells of a grid.
pub fn way_over(
    alloc: Global,
    rooms: &Rooms,
    opened: &Opened,
    start: &Point,
    goal: &Point,
) -> Result<Way, OutOfMemory>
    requires labels { ∥ AreLabels (field_of_grid opened.now.cover.grid) (label_in opened.now.labels) ∥₁ }
    requires start { IsTrue (is_inside opened.now.cover.grid.size start.now) }
    requires goal { IsTrue (is_inside opened.now.cover.grid.size goal.now) }
    ensures { IfOk result (λ way. way_in way ≡ way_of (field_of_grid opened.now.cover.grid) start.now goal.now) }
{
    let mut searcher = rooms.take();
    let way = searcher.way(alloc, &opened.cover.grid, &opened.labels, *start, *goal);
    rooms.put(searcher);
    way
}
