//! Random cells, by the generator that is known as rand48. It begins with one word, so all runs go through the same cells.

ghost use Rattle.std.specs.Prelude.{◌≡◌, ◌^◌, ◌<◌};
ghost use Rattle.sim_base.specs.Places.{is_inside, is_within as is_within_cells};

use sim_base::{Fixed, Point, next_word};
use sim_grid::Grid;

/// A generator of points in the middles of cells.
#[derive(Clone, Copy)]
pub struct Points {
    word: u64,
    ghost small: { word < 2 ^ 48 },
}

impl Points {
    /// The generator that begins with the word 1.
    pub fn new() -> Points {
        Points { word: 1 }
    }

    /// The next point, in one of 256 by 256 cells.
    pub fn draw(&mut self) -> Point {
        let x = self.coordinate();
        let z = self.coordinate();
        centre(x, z)
    }

    fn coordinate(&mut self) -> u8 {
        self.word = next_word(self.word);
        (self.word >> 17 & 255) as u8
    }
}

/// The point in the middle of a cell.
pub fn centre(x: u8, z: u8) -> Point {
    Point {
        x: Fixed::from_raw(i32::from(x) * 65_536 + 32_768),
        z: Fixed::from_raw(i32::from(z) * 65_536 + 32_768),
    }
}

/// Whether the ground has the point.
pub fn is_on(grid: &Grid, at: &Point) -> bool
    ensures { result ≡ is_inside grid.now.size at.now }
{
    is_within(at.x, grid.width()) && is_within(at.z, grid.depth())
}

fn is_within(coordinate: Fixed, cells: u16) -> bool
    ensures { result ≡ is_within_cells coordinate cells }
{
    let raw = i64::from(coordinate.raw());
    0 <= raw && raw < i64::from(cells) * 65_536
}
