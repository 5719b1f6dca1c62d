//! Where landmarks are set: each far from those before.

ghost use Rattle.{sim_grid.specs.Grids.is_open_at, sim_search.specs.{Common.{field_of_grid, IsOnGround}, Rows.{AreLandmarks, row_in}}};
ghost use Rattle.std.specs.Prelude.{IfOk, IfSome, true, ◌≡◌};

use crate::costs::Costs;
use crate::drain::least_costs;
use crate::landmarks::Landmarks;
use crate::row::LANDMARKS;
use crate::table::{Table, no_numbers};
use sim_base::{Cell, Global, OutOfMemory};
use sim_grid::Grid;

// Notes how far a cell is from the nearest landmark, and answers that.
fn note(nearest: &mut Table, cell: Cell, cost: u32) -> u32 {
    if !nearest.has(cell) {
        return 0;
    }
    let near = match nearest.at(cell) {
        Some(before) => before.min(cost),
        None => cost,
    };
    nearest.set(cell, near);
    near
}

// The open cell that is furthest from the nearest landmark, where these are the costs from the last one.
fn furthest(grid: &Grid, nearest: &mut Table, costs: &Costs) -> Option<Cell>
    ensures { IfSome result (λ c. IsOnGround grid.now.size c × (is_open_at grid.now c ≡ true)) }
{
    let mut most = 0u32;
    let mut found = None;
    for z in 0..grid.depth() {
        for x in 0..grid.width() {
            let cell = Cell { x, z };
            if let Some(cost) = costs.at(cell) {
                let near = note(nearest, cell, cost);
                if most < near && grid.open(cell) {
                    most = near;
                    found = Some(cell);
                }
            }
        }
    }
    found
}

/// Landmarks on the ground of a grid that a walk from this cell reaches, the first one the furthest from it.
pub fn landmarks_on(alloc: Global, grid: &Grid, from: Cell) -> Result<Landmarks, OutOfMemory>
    requires on { IsOnGround grid.now.size from }
    requires is_open { is_open_at grid.now from ≡ true }
    ensures { IfOk result (λ l. AreLandmarks (field_of_grid grid.now) (row_in l)) }
{
    let mut costs = least_costs(alloc, grid, from)?;
    let mut landmarks = Landmarks::new(alloc, &costs)?;
    let mut nearest = no_numbers(alloc, grid.width(), grid.depth())?;
    for which in 0..LANDMARKS {
        let Some(cell) = furthest(grid, &mut nearest, &costs) else {
            return Ok(landmarks);
        };
        costs = least_costs(alloc, grid, cell)?;
        landmarks.set(which, &costs);
    }
    Ok(landmarks)
}
