//! Points, cells and rectangles. A point has two fixed-point numbers, a cell is a square metre of the ground, and the
//! first is turned into the second here and nowhere else.

ghost use Rattle.std.specs.Prelude.{◌≡◌, ◌/◌, ◌<◌, pos, ◌+ℤ◌, ◌-ℤ◌, unsigned_abs};
ghost use Rattle.sim_base.specs.Places.{cell_of as cell_at, centre_of as centre_at, IsPlaced, rect_of as rect_at, square as square_between};

use crate::{Fixed, Items};

/// A point of the ground, in metres.
#[derive(Clone, Copy, Debug, PartialEq, Eq)]
pub struct Point {
    pub x: Fixed,
    pub z: Fixed,
}

/// A list of points.
pub type Points = Items<Point>;

/// A square of one metre, by the whole metres of its points.
#[derive(Clone, Copy, Debug, PartialEq, Eq)]
pub struct Cell {
    pub x: u16,
    pub z: u16,
}

/// The cells from `x0` to `x1` and from `z0` to `z1`, both ends included. It may reach past the ground.
#[derive(Clone, Copy, Debug, PartialEq, Eq)]
pub struct Rect {
    pub x0: i32,
    pub z0: i32,
    pub x1: i32,
    pub z1: i32,
}

/// A list of rectangles.
pub type Rects = Items<Rect>;

/// The cell in which a point lies.
pub fn cell_of(at: Point) -> Cell
    requires { IsPlaced at }
    ensures { result ≡ cell_at at }
{
    Cell {
        x: (at.x.raw() / 65536) as u16,
        z: (at.z.raw() / 65536) as u16,
    }
}

/// The point in the middle of a cell.
pub fn centre_of(cell: Cell) -> Point
    requires x { cell.x < 256 }
    requires z { cell.z < 256 }
    ensures { result ≡ centre_at cell }
{
    Point {
        x: Fixed::from_raw(i32::from(cell.x) * 65536 + 32768),
        z: Fixed::from_raw(i32::from(cell.z) * 65536 + 32768),
    }
}

/// The square of the distance of two points, in raws.
pub fn square(a: Point, b: Point) -> u64
    requires a { IsPlaced a }
    requires b { IsPlaced b }
    ensures { result ≡ square_between a b }
{
    let x = gap(a.x, b.x);
    let z = gap(a.z, b.z);
    x * x + z * z
}

// How far apart two numbers are, in raws.
fn gap(a: Fixed, b: Fixed) -> u64
    ensures { result ≡ unsigned_abs (a -ℤ b) }
{
    u64::from(a.raw().abs_diff(b.raw()))
}

/// The cells of an obstruction of so many by so many cells that stands at a point.
pub fn rect_of(at: Point, width: u8, depth: u8) -> Rect
    requires { IsPlaced at }
    ensures { result ≡ rect_at at width depth }
{
    let cell = cell_of(at);
    let (x0, x1) = ends_of(cell.x, width);
    let (z0, z1) = ends_of(cell.z, depth);
    Rect { x0, z0, x1, z1 }
}

// The first and the last of so many cells in a row about one.
fn ends_of(cell: u16, count: u8) -> (i32, i32)
    ensures first { result.0 ≡ pos cell -ℤ pos (count / 2) }
    ensures last { result.1 ≡ pos cell -ℤ pos (count / 2) +ℤ pos count -ℤ pos 1 }
{
    let first = i32::from(cell) - i32::from(count / 2);
    (first, first + i32::from(count) - 1)
}
