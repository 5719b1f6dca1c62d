//! Landmarks on a ground: cells from which all least costs are known. By the difference of two cells in one of them no walk
//! between these costs less.

ghost use Rattle.std.specs.Prelude.{◌≡◌, ◌*◌, ◌≤◌, vec_len};

use crate::costs::Costs;
use crate::row::{Row, alike, row_with};
use sim_base::{Cell, Global, OutOfMemory};

/// The rows of the cells of a ground, by z, then x: None where the cell is closed, or where a landmark does not reach it.
#[derive(Drop)]
pub struct Landmarks {
    pub width: u16,
    pub depth: u16,
    pub items: Vec<Option<Row>>,
    ghost narrow: { width ≤ 256 },
    ghost shallow: { depth ≤ 256 },
    ghost full: { vec_len items ≡ width * depth },
}

impl Landmarks {
    ghost use Rattle.std.specs.Prelude.{IfOk, ◌<◌, ◌≡◌};
    ghost use Rattle.sim_search.specs.{Common.Cell, Queues.cost_in, Queues.size_of, Rows.alike as alike_by, Rows.row_in, Rows.row_with as row_by, Rows.size_by};

    /// Landmarks that tell nothing yet, of the cells that have a cost.
    pub fn new(alloc: Global, costs: &Costs) -> Result<Landmarks, OutOfMemory>
        ensures size { IfOk result (λ l. size_by l ≡ size_of costs.now) }
        ensures rows { IfOk result (λ l. (c : Cell) → row_in l c ≡ alike_by (cost_in costs.now c)) }
    {
        let mut items = Vec::with_capacity(alloc, costs.items.len())?;
        for place in 0..costs.items.len() {
            items.push(alike(costs.at_place(place)))?;
        }
        Ok(Landmarks {
            width: costs.width,
            depth: costs.depth,
            items,
        })
    }

    /// The row of a cell: None where it has none, or is not one of the ground's.
    #[inline(always)]
    pub fn at(&self, cell: Cell) -> Option<Row>
        ensures { result ≡ row_in self.now cell }
    {
        if cell.x < self.width && cell.z < self.depth {
            self.items[usize::from(cell.z) * usize::from(self.width) + usize::from(cell.x)]
        } else {
            None
        }
    }

    /// Sets one landmark by the costs of walks from it.
    pub fn set(&mut self, which: usize, costs: &Costs)
        requires which { which < 8 }
        requires size { size_by self.old ≡ size_of costs.now }
        ensures size { size_by self.new ≡ size_by self.old }
        ensures rows { (c : Cell) → row_in self.new c ≡ row_by which (row_in self.old c) (cost_in costs.now c) }
    {
        for place in 0..self.items.len() {
            self.items[place] = row_with(self.items[place], which, costs.at_place(place));
        }
    }
}
