//! Which cells of a ground are open: one truth value for each, row by row. It stands below the grid, which keeps beside
//! it what steps they leave.

ghost use Rattle.sim_base.specs.{declared.place.Cell.Cell, Places.{cell_at as cell_of_numbers, IsOnGround, neighbour as neighbour_of, offsets}};
ghost use Rattle.sim_grid.specs.Grids.{HasSpotBeside, is_open_at, IsDepth, IsGrid, IsGroundSize, IsOneOff, IsWidth, place_of};
ghost use Rattle.std.specs.Prelude.{IfOk, pos, replicate, slice_get, slice_set, Some, true, ◌*◌, ◌+ℤ◌, ◌<◌, ◌≡◌, ◌≤ℤ◌};

use crate::spot::Spot;
use sim_base::{Cell, Global, OutOfMemory};
use std::marker::Model;

/// The open cells of a ground. Contracts see the ground's size, and a list of truth values by z, then x.
#[derive(Debug, Drop)]
pub struct Cells {
    width: u16,
    depth: u16,
    cells: Vec<bool>,
}

impl Model for Cells {
    ghost use Rattle.sim_grid.specs.Grids.{IsGrid, OpenCells};

    ghost Value = { OpenCells };

    ghost view = { λ g. record { size = record { width = g.width; depth = g.depth }; cells = g.cells.items } };

    ghost invariant = { λ g. IsGrid (record { size = record { width = g.width; depth = g.depth }; cells = g.cells.items }) };
}

impl Cells {
    /// The cells of a ground of so many, all open.
    pub fn new(alloc: Global, width: u16, depth: u16) -> Result<Cells, OutOfMemory>
        requires { IsGroundSize (record { width = width; depth = depth }) }
        ensures { IfOk result (λ g. g ≡ record { size = record { width = width; depth = depth }; cells = replicate (width * depth) true }) }
    {
        let count = usize::from(width) * usize::from(depth);
        Ok(Cells {
            width,
            depth,
            cells: vec![in alloc; true; count]?,
        })
    }

    /// How many cells the ground has from west to east.
    pub fn width(&self) -> u16
        ensures { IsWidth self.now result }
    {
        self.width
    }

    /// How many cells the ground has from south to north.
    pub fn depth(&self) -> u16
        ensures { IsDepth self.now result }
    {
        self.depth
    }

    /// Whether the cell is open.
    pub fn open(&self, cell: Cell) -> bool
        requires { IsOnGround self.now.size cell }
        ensures { result ≡ is_open_at self.now cell }
    {
        self.cells[self.place(cell)]
    }

    /// Opens or closes the cell at this place of the list.
    pub fn set(&mut self, place: usize, free: bool)
        requires { place < self.old.size.width * self.old.size.depth }
        ensures { self.new ≡ record self.old { cells = slice_set self.old.cells place free } }
    {
        self.cells[place] = free;
    }

    /// The cell beside this one in one of the eight directions: E, N, W, S, NE, NW, SW, SE.
    pub fn neighbour(&self, cell: Cell, which: u8) -> Option<Cell>
        requires { which < 8 }
        ensures { result ≡ neighbour_of self.now.size cell which }
    {
        let (x, z) = offset(which);
        self.cell_from(cell, x, z)
    }

    // The cell so far east and north of this one, if the ground has it.
    fn cell_from(&self, cell: Cell, x: i32, z: i32) -> Option<Cell>
        requires x { IsOneOff x }
        requires z { IsOneOff z }
        ensures { result ≡ cell_of_numbers self.now.size (pos cell.x +ℤ x) (pos cell.z +ℤ z) }
    {
        self.cell_at(i32::from(cell.x) + x, i32::from(cell.z) + z)
    }

    // The cell at these two numbers, if the ground has one.
    fn cell_at(&self, x: i32, z: i32) -> Option<Cell>
        ensures { result ≡ cell_of_numbers self.now.size x z }
    {
        if 0 <= x && x < i32::from(self.width) && 0 <= z && z < i32::from(self.depth) {
            Some(Cell {
                x: x as u16,
                z: z as u16,
            })
        } else {
            None
        }
    }

    /// Where the cell stands in the list.
    pub fn place(&self, cell: Cell) -> usize
        requires { IsOnGround self.now.size cell }
        ensures place { result ≡ place_of self.now.size cell }
        ensures below { result < self.now.size.width * self.now.size.depth }
        ensures grid { IsGrid self.now }
    {
        usize::from(cell.z) * usize::from(self.width) + usize::from(cell.x)
    }

    /// Where the cell beside this one in one of the eight directions stands in the list, where the ground has it.
    #[inline(always)]
    pub fn place_beside(&self, from: Spot, which: u8) -> usize
        requires { HasSpotBeside self.now.size from which }
        ensures { (to : Cell) → neighbour_of self.now.size from.cell which ≡ Some to → result ≡ place_of self.now.size to }
    {
        let width = usize::from(self.width);
        match which {
            0 => from.place + 1,
            1 => from.place + width,
            2 => from.place - 1,
            3 => from.place - width,
            5 => from.place + width - 1,
            6 => from.place - width - 1,
            7 => from.place - width + 1,
            _ => from.place + width + 1,
        }
    }
}

/// How far a direction goes east and north.
pub fn offset(which: u8) -> (i32, i32)
    requires { which < 8 }
    ensures offset { slice_get offsets which ≡ Some result }
    ensures x { IsOneOff result.0 }
    ensures z { IsOneOff result.1 }
{
    match which {
        0 => (1, 0),
        1 => (0, 1),
        2 => (-1, 0),
        3 => (0, -1),
        4 => (1, 1),
        5 => (-1, 1),
        6 => (-1, -1),
        _ => (1, -1),
    }
}

/// A coordinate, one more, one less or as it was.
pub fn moved(from: u16, by: i32) -> u16
    requires by { IsOneOff by }
    requires least { pos 0 ≤ℤ (pos from +ℤ by) }
    requires most { (pos from +ℤ by) ≤ℤ pos 255 }
    ensures { pos result ≡ pos from +ℤ by }
{
    (i32::from(from) + by) as u16
}
