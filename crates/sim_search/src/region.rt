//! Cells that steps to the east, north, west and south over open cells join, as far as a look nearby tells. What it finds
//! is joined; what it doesn't find may be joined all the same.

ghost use Rattle.sim_search.specs.{Common.{field_of_grid, IsOnGround}, Floods.{AreAdded, AreJoined, AreOpen, IsInside, IsJoined, IsRim}};
ghost use Rattle.std.specs.Prelude.{Contains, IfOk, IsTrue, OnOk, true, ◌↔◌, ◌≡◌};

use sim_base::{Cell, Global, OutOfMemory};
use sim_grid::Grid;

// So many cells are gone through at most, and so far from the given ones.
const MOST: usize = 512;

const FAR: u16 = 8;

/// The cells from `west` and `south` on, before `east` and `north`.
#[derive(Clone, Copy)]
pub struct Window {
    pub west: u16,
    pub south: u16,
    pub east: u16,
    pub north: u16,
}

impl Window {
    // Whether the window has the cell.
    fn has(&self, cell: Cell) -> bool
        ensures { IsTrue result ↔ IsInside self.now cell }
    {
        self.west <= cell.x && cell.x < self.east && self.south <= cell.z && cell.z < self.north
    }

    // A window that has the cell too, and those that are so far from it.
    fn widened(self, cell: Cell, far: u16) -> Window {
        Window {
            west: self.west.min(cell.x.saturating_sub(far)),
            south: self.south.min(cell.z.saturating_sub(far)),
            east: self.east.max(cell.x.saturating_add(far).saturating_add(1)),
            north: self.north.max(cell.z.saturating_add(far).saturating_add(1)),
        }
    }
}

// The window about these cells.
fn window_about(cells: &[Cell], far: u16) -> Window {
    let mut window = Window {
        west: u16::MAX,
        south: u16::MAX,
        east: 0,
        north: 0,
    };
    for cell in cells {
        window = window.widened(*cell, far);
    }
    window
}

// Whether the list has the cell.
fn is_among(cells: &[Cell], cell: Cell) -> bool
    ensures { result ≡ true → Contains cells.now cell }
{
    for other in cells {
        if *other == cell {
            return true;
        }
    }
    false
}

// Whether the list has all of these cells.
fn are_among(all: &[Cell], cells: &[Cell]) -> bool
    ensures { result ≡ true → (c : Cell) → Contains cells.now c → Contains all.now c }
{
    for cell in cells {
        if !is_among(all, *cell) {
            return false;
        }
    }
    true
}

// Adds the open cells beside one that lie in the window.
fn push_beside(
    cells: &mut Vec<Cell>,
    grid: &Grid,
    window: Window,
    from: Cell,
) -> Result<(), OutOfMemory>
    ensures { OnOk result (AreAdded (field_of_grid grid.now) window from cells.old.items cells.new.items) }
{
    for which in 0..4u8 {
        if let Some(to) = grid.neighbour(from, which) {
            if window.has(to) && grid.open(to) && !is_among(cells.as_slice(), to) {
                cells.push(to)?;
            }
        }
    }
    Ok(())
}

// The cells to which steps from the first one lead within the window.
fn reached(
    alloc: Global,
    grid: &Grid,
    window: Window,
    first: Cell,
) -> Result<Vec<Cell>, OutOfMemory>
    requires on { IsOnGround grid.now.size first }
    requires is_open { (field_of_grid grid.now).is_open first ≡ true }
    ensures { IfOk result (λ cells. (c : Cell) → Contains cells.items c → IsJoined (field_of_grid grid.now) first c) }
{
    let mut cells = Vec::with_capacity(alloc, 16)?;
    cells.push(first)?;
    for next in 0..MOST {
        if next >= cells.len() {
            return Ok(cells);
        }
        let from = cells[next];
        push_beside(&mut cells, grid, window, from)?;
    }
    Ok(cells)
}

// Whether these cells are joined within the window about them. False says nothing.
fn are_joined_within(alloc: Global, grid: &Grid, cells: &[Cell], far: u16) -> bool
    requires { AreOpen (field_of_grid grid.now) cells.now }
    ensures { result ≡ true → AreJoined (field_of_grid grid.now) cells.now }
{
    if cells.is_empty() {
        return true;
    }
    let first = cells[0];
    match reached(alloc, grid, window_about(cells, far), first) {
        Ok(found) => are_among(found.as_slice(), cells),
        Err(_) => false,
    }
}

/// Whether any two of these open cells are joined, by a look at the cells about them. False says nothing.
pub fn are_joined(alloc: Global, grid: &Grid, cells: &[Cell]) -> bool
    requires { AreOpen (field_of_grid grid.now) cells.now }
    ensures { result ≡ true → AreJoined (field_of_grid grid.now) cells.now }
{
    are_joined_within(alloc, grid, cells, 0) || are_joined_within(alloc, grid, cells, FAR)
}

/// The open cells beside these.
pub fn rim_of(alloc: Global, grid: &Grid, cells: &[Cell]) -> Result<Vec<Cell>, OutOfMemory>
    ensures { IfOk result (λ rim. IsRim (field_of_grid grid.now) cells.now rim.items) }
{
    let window = Window {
        west: 0,
        south: 0,
        east: grid.width(),
        north: grid.depth(),
    };
    let mut rim = Vec::with_capacity(alloc, 16)?;
    for cell in cells {
        push_beside(&mut rim, grid, window, *cell)?;
    }
    Ok(rim)
}
