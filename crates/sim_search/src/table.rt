//! A number for some of the cells of a ground.

ghost use Rattle.std.specs.Prelude.{◌≡◌, ◌*◌, ◌<◌, ◌≤◌, replicate, IfOk, None, vec_len};

use sim_base::{Cell, Global, OutOfMemory};

/// The numbers of the cells of a ground, by z, then x: None where a cell has none.
#[derive(Drop)]
pub struct Table {
    pub width: u16,
    pub depth: u16,
    pub items: Vec<Option<u32>>,
    ghost narrow: { width ≤ 256 },
    ghost shallow: { depth ≤ 256 },
    ghost full: { vec_len items ≡ width * depth },
}

impl Table {
    ghost use Rattle.std.specs.Prelude.{IfOk, IsTrue, None, replicate, Some, ◌*◌, ◌+◌, ◌<◌, ◌↔◌, ◌≡◌};
    ghost use Rattle.sim_search.specs.{Common.Cell, Common.IsOnGround, Floods.IsEmptied, Floods.IsEntered, Floods.entry_in, Floods.size_in, Queues.IsPlace};

    /// Whether the ground has this cell.
    pub fn has(&self, cell: Cell) -> bool
        ensures { IsTrue result ↔ IsOnGround (size_in self.now) cell }
    {
        cell.x < self.width && cell.z < self.depth
    }

    /// Where a cell of the ground stands in the list.
    pub fn place(&self, cell: Cell) -> usize
        requires { IsOnGround (size_in self.now) cell }
        ensures { IsPlace (size_in self.now) cell result }
    {
        usize::from(cell.z) * usize::from(self.width) + usize::from(cell.x)
    }

    /// The number of a cell: None where it has none, or is not one of the ground's.
    pub fn at(&self, cell: Cell) -> Option<u32>
        ensures { result ≡ entry_in self.now cell }
    {
        if self.has(cell) {
            self.items[self.place(cell)]
        } else {
            None
        }
    }

    /// Gives a cell this number.
    pub fn set(&mut self, cell: Cell, number: u32)
        requires { IsOnGround (size_in self.old) cell }
        ensures { IsEntered self.old self.new cell number }
    {
        let place = self.place(cell);
        self.items[place] = Some(number);
    }

    /// Takes the number of a cell, if it has one.
    pub fn clear(&mut self, cell: Cell)
        ensures { IsEmptied self.old self.new cell }
    {
        if self.has(cell) {
            let place = self.place(cell);
            self.items[place] = None;
        }
    }
}

/// A table of a ground of so many cells, none of which has a number.
pub fn no_numbers(alloc: Global, width: u16, depth: u16) -> Result<Table, OutOfMemory>
    requires narrow { width ≤ 256 }
    requires shallow { depth ≤ 256 }
    ensures { IfOk result (λ t. (t.width ≡ width) × (t.depth ≡ depth) × (t.items.items ≡ replicate (width * depth) None)) }
{
    let count = usize::from(width) * usize::from(depth);
    Ok(Table {
        width,
        depth,
        items: vec![in alloc; None; count]?,
    })
}
