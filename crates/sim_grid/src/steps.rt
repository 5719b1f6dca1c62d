//! The steps that lead over open cells, as a bit for each of the eight directions. They are noted for each cell when the
//! cells change, so that whoever goes from cell to cell reads one byte and looks at none of those about it.

ghost use Rattle.std.specs.Prelude.{IfOk, OnOk, vec_len, ◌*◌, ◌+◌, ◌<◌, ◌≡◌};
ghost use Rattle.sim_base.specs.Places.{beside_open, IsOnGround};
ghost use Rattle.sim_grid.specs.Grids.{AreFirstSteps, AreSteps, AreStepsApart, AreStepsFrom, field_of_grid, is_open_at, is_open_step, IsNoted, LooksFrom};

use crate::cells::Cells;
use sim_base::{Cell, Global, OutOfMemory};

// Whether both cells beside a diagonal step are open.
fn is_beside_open(cells: &Cells, from: Cell, to: Cell) -> bool
    requires from { IsOnGround cells.now.size from }
    requires to { IsOnGround cells.now.size to }
    ensures { result ≡ beside_open (is_open_at cells.now) from to }
{
    cells.open(Cell { x: from.x, z: to.z }) && cells.open(Cell { x: to.x, z: from.z })
}

// Whether a step from this cell in that direction leads over open cells.
fn leads_on(cells: &Cells, from: Cell, which: u8) -> bool
    requires { LooksFrom cells.now.size from which }
    ensures { result ≡ is_open_step (field_of_grid cells.now) from which }
{
    match cells.neighbour(from, which) {
        Some(to) => cells.open(to) && (which < 4 || is_beside_open(cells, from, to)),
        None => false,
    }
}

// The steps from a cell, a bit for each direction.
fn steps_from(cells: &Cells, from: Cell) -> u8
    requires { IsOnGround cells.now.size from }
    ensures { AreStepsFrom (field_of_grid cells.now) from result }
{
    let mut steps = 0u8;
    for which in 0..8u8 {
        if leads_on(cells, from, which) {
            steps |= 1 << which;
        }
    }
    steps
}

// Adds the steps from the cells of a row.
fn push_row(steps: &mut Vec<u8>, cells: &Cells, z: u16) -> Result<(), OutOfMemory>
    requires row { z < cells.now.size.depth }
    requires first { AreFirstSteps cells.now (z * cells.now.size.width) steps.old.items }
    ensures { OnOk result (AreFirstSteps cells.now ((z + 1) * cells.now.size.width) steps.new.items) }
{
    for x in 0..cells.width() {
        steps.push(steps_from(cells, Cell { x, z }))?;
    }
    Ok(())
}

/// The steps from all cells, by z, then x.
pub fn all_steps(alloc: Global, cells: &Cells) -> Result<Vec<u8>, OutOfMemory>
    ensures { IfOk result (λ steps. AreSteps cells.now steps.items) }
{
    let mut steps = Vec::new(alloc);
    for z in 0..cells.depth() {
        push_row(&mut steps, cells, z)?;
    }
    Ok(steps)
}

// Notes the steps from a cell anew.
fn note(steps: &mut Vec<u8>, cells: &Cells, from: Cell)
    requires on { IsOnGround cells.now.size from }
    requires full { vec_len steps.old ≡ cells.now.size.width * cells.now.size.depth }
    ensures { IsNoted cells.now steps.old.items steps.new.items from }
{
    let place = cells.place(from);
    steps[place] = steps_from(cells, from);
}

/// Notes the steps from a cell that was opened or closed, and from those about it.
pub fn note_about(steps: &mut Vec<u8>, cells: &Cells, about: Cell)
    requires on { IsOnGround cells.now.size about }
    requires apart { AreStepsApart cells.now about steps.old.items }
    ensures { AreSteps cells.now steps.new.items }
{
    note(steps, cells, about);
    for which in 0..8u8 {
        if let Some(beside) = cells.neighbour(about, which) {
            note(steps, cells, beside);
        }
    }
}
