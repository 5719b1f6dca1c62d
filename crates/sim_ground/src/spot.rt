//! The open cell nearest to a point, looked for over the grid of open cells.

ghost use Rattle.std.specs.Prelude.{filter, fold, Option, Some, ◌<◌, ◌≡◌};
ghost use Rattle.sim_ground.specs.Cells.{IsSmall, IsSmallIfAny, nearer, row_of, spot_key};
ghost use Rattle.{sim_base.specs.Places.IsPlaced, sim_base.specs.Places.cells_of, sim_base.specs.Ways.least_of, sim_grid.specs.Grids.is_open_at};

use sim_base::{Cell, Point, centre_of, square};
use sim_grid::Grid;

// What cells are compared by.
#[tactic(auto, using(crate::proofs::Spots::centre_placed))]
fn key(at: &Point, cell: Cell) -> [u64; 3]
    requires at { IsPlaced at.now }
    requires small { IsSmall cell }
    ensures { result ≡ spot_key at.now cell }
{
    [
        square(centre_of(cell), *at),
        u64::from(cell.z),
        u64::from(cell.x),
    ]
}

// The nearer one of the best so far, if any, and another cell.
fn nearer_of(at: &Point, best: Option<Cell>, cell: Cell) -> Option<Cell>
    requires at { IsPlaced at.now }
    requires best { IsSmallIfAny best }
    requires small { IsSmall cell }
    ensures nearer { result ≡ nearer at.now best cell }
    ensures small { IsSmallIfAny result }
{
    match best {
        None => Some(cell),
        Some(first) => {
            if key(at, cell) < key(at, first) {
                Some(cell)
            } else {
                Some(first)
            }
        }
    }
}

// The nearest one of the best so far, if any, and the open cells of a row.
fn nearest_in_row(grid: &Grid, at: &Point, first: Option<Cell>, z: u16) -> Option<Cell>
    requires at { IsPlaced at.now }
    requires row { z < grid.now.size.depth }
    requires first { IsSmallIfAny first }
    ensures nearest { result ≡ fold (nearer at.now) first (filter (is_open_at grid.now) (row_of z grid.now.size.width)) }
    ensures small { IsSmallIfAny result }
{
    let mut best = first;
    for x in 0..grid.width() {
        let cell = Cell { x, z };
        if grid.open(cell) {
            best = nearer_of(at, best, cell);
        }
    }
    best
}

/// The open cell of a grid whose centre is nearest to a point; of several the one with the least z, then the least x.
pub fn nearest(grid: &Grid, at: &Point) -> Option<Cell>
    requires { IsPlaced at.now }
    ensures { result ≡ least_of (spot_key at.now) (filter (is_open_at grid.now) (cells_of grid.now.size)) }
{
    let mut best = None;
    for z in 0..grid.depth() {
        best = nearest_in_row(grid, at, best, z);
    }
    best
}
