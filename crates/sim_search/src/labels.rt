//! Labels of regions. Two open cells have one label just where steps to the east, north, west and south over open cells
//! join them.

ghost use Rattle.std.specs.Prelude.{All, IfOk, IsTrue, OnOk, Some, ◌*◌, ◌+◌, ◌<◌, ◌↔◌, ◌≡◌};
ghost use Rattle.sim_search.specs.Floods.{AreForgotten, AreGiven, AreLabels, entry_in, Fills, Flooded, Floods, HasRoom, is_late, is_none_late, label_in, Marks};
ghost use Rattle.sim_search.specs.{Common.IsOnGround, Common.field_of_grid, Common.place_of, Floods.Spreads, Floods.size_in};

use crate::table::{Table, no_numbers};
use sim_base::{Cell, Global, OutOfMemory};
use sim_grid::Grid;

/// The label of each open cell of a grid: the least place, `z * width + x`, of the cells that are joined to it.
#[derive(Drop)]
pub struct Labels {
    table: Table,
}

impl Labels {
    /// The label of a cell: None where it is closed, or not one of the ground's.
    pub fn of(&self, cell: Cell) -> Option<u32>
        ensures { result ≡ label_in self.now cell }
    {
        self.table.at(cell)
    }

    /// Whether the ground of these labels has the cell.
    pub fn has(&self, cell: Cell) -> bool
        ensures { IsTrue result ↔ HasRoom self.now cell }
    {
        self.table.has(cell)
    }

    /// Takes the labels of these cells.
    pub fn forget(&mut self, cells: &[Cell])
        ensures { AreForgotten self.old self.new cells.now }
    {
        for cell in cells {
            self.table.clear(*cell);
        }
    }

    /// Gives these cells this label.
    pub fn give(&mut self, cells: &[Cell], label: u32)
        requires { All (HasRoom self.old) cells.now }
        ensures { AreGiven self.old self.new cells.now label }
    {
        for cell in cells {
            self.table.set(*cell, label);
        }
    }
}

// The labels that are known so far, and the cells whose neighbours were not looked at.
#[derive(Drop)]
struct Flood {
    table: Table,
    waiting: Vec<Cell>,
}

// Gives a cell this label, if it is open and has none.
fn mark(flood: &mut Flood, grid: &Grid, cell: Cell, label: u32) -> Result<(), OutOfMemory>
    requires size { size_in flood.old.table ≡ grid.now.size }
    requires cell_on { IsOnGround grid.now.size cell }
    ensures { OnOk result (Marks (field_of_grid grid.now) flood.old flood.new cell label) }
{
    if grid.open(cell) && flood.table.at(cell).is_none() {
        flood.waiting.push(cell)?;
        flood.table.set(cell, label);
    }
    Ok(())
}

// Gives the open neighbours of a cell its label.
fn spread(flood: &mut Flood, grid: &Grid, from: Cell, label: u32) -> Result<(), OutOfMemory>
    requires floods { Floods (field_of_grid grid.now) flood.old label (is_late from) }
    requires label { entry_in flood.old.table from ≡ Some label }
    ensures floods { OnOk result (Floods (field_of_grid grid.now) flood.new label is_none_late) }
    ensures spreads { OnOk result (Spreads flood.old flood.new) }
{
    for which in 0..4u8 {
        if let Some(to) = grid.neighbour(from, which) {
            mark(flood, grid, to, label)?;
        }
    }
    Ok(())
}

// Labels all cells that are joined to those that wait.
fn fill(flood: &mut Flood, grid: &Grid, label: u32) -> Result<(), OutOfMemory>
    requires { Floods (field_of_grid grid.now) flood.old label is_none_late }
    ensures floods { OnOk result (Floods (field_of_grid grid.now) flood.new label is_none_late) }
    ensures fills { OnOk result (Fills flood.old flood.new) }
{
    while let Some(from) = flood.waiting.pop() {
        spread(flood, grid, from, label)?;
    }
    Ok(())
}

// Labels the cells that are joined to one, if it has no label yet.
fn flood_from(flood: &mut Flood, grid: &Grid, cell: Cell) -> Result<(), OutOfMemory>
    requires flooded { Flooded (field_of_grid grid.now) flood.old (place_of grid.now.size cell) }
    requires cell_on { IsOnGround grid.now.size cell }
    ensures { OnOk result (Flooded (field_of_grid grid.now) flood.new (place_of grid.now.size cell + 1)) }
{
    let label = flood.table.place(cell) as u32;
    mark(flood, grid, cell, label)?;
    fill(flood, grid, label)
}

// Labels the cells that are joined to those of a row.
fn flood_row(flood: &mut Flood, grid: &Grid, z: u16) -> Result<(), OutOfMemory>
    requires flooded { Flooded (field_of_grid grid.now) flood.old (z * grid.now.size.width) }
    requires row { z < grid.now.size.depth }
    ensures { OnOk result (Flooded (field_of_grid grid.now) flood.new ((z + 1) * grid.now.size.width)) }
{
    for x in 0..grid.width() {
        flood_from(flood, grid, Cell { x, z })?;
    }
    Ok(())
}

/// The labels of the open cells of the grid.
pub fn labels_of(alloc: Global, grid: &Grid) -> Result<Labels, OutOfMemory>
    ensures { IfOk result (λ labels. AreLabels (field_of_grid grid.now) (label_in labels)) }
{
    let mut flood = Flood {
        table: no_numbers(alloc, grid.width(), grid.depth())?,
        waiting: Vec::new(alloc),
    };
    for z in 0..grid.depth() {
        flood_row(&mut flood, grid, z)?;
    }
    let Flood { table, .. } = flood;
    Ok(Labels { table })
}
