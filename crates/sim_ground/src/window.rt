//! Which rows and columns of a ground a rectangle has: its ends are any numbers, and those of a window are of the ground.

ghost use Rattle.std.specs.Prelude.{◌≡◌};
ghost use Rattle.{sim_base.specs.Places.IsOnGround, sim_base.specs.Places.covers, sim_ground.specs.Closing.LiesOn, sim_ground.specs.Closing.in_window};

use crate::span::span;
use sim_base::{Cell, Rect};
use sim_grid::Grid;

/// The cells of some rows and columns of a ground: each from the first to before the end.
#[derive(Clone, Copy, Debug)]
pub struct Window {
    pub south: u16,
    pub north: u16,
    pub west: u16,
    pub east: u16,
}

/// That of the cells of a rectangle that lie on the ground of a grid.
pub fn window_of(rect: &Rect, grid: &Grid) -> Window
    ensures on { LiesOn grid.now.size result }
    ensures same { (c : Cell) → IsOnGround grid.now.size c → in_window result c ≡ covers rect.now c }
{
    let (south, north) = span(rect.z0, rect.z1, grid.depth());
    let (west, east) = span(rect.x0, rect.x1, grid.width());
    Window {
        south,
        north,
        west,
        east,
    }
}
