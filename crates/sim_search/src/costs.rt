//! A cost for each cell that a search has come to. It stands apart from the search, since what follows one reads it, and no
//! more of it than that and its key.

ghost use Rattle.std.specs.Prelude.{◌≡◌, ◌*◌, ◌<◌, ◌≤◌, vec_len, All};
ghost use Rattle.sim_search.specs.declared.entry.Entry.{Entry};

use crate::entry::Entry;
use sim_base::Cell;
use sim_grid::Spot;

/// The costs of the cells of a ground, by z, then x: those that have the stamp of this search. So all of them can be
/// forgotten at once.
#[derive(Drop)]
pub struct Costs {
    pub width: u16,
    pub depth: u16,
    pub stamp: u32,
    pub items: Vec<Entry>,
    ghost narrow: { width ≤ 256 },
    ghost shallow: { depth ≤ 256 },
    ghost full: { vec_len items ≡ width * depth },
    ghost stamped: { All (λ (e : Entry). e.stamp ≤ stamp) items.items },
}

impl Costs {
    ghost use Rattle.std.specs.Prelude.{IsTrue, None, slice_index_or, Some, vec_len, ◌*◌, ◌+◌, ◌-◌, ◌<◌, ◌^◌, ◌↔◌, ◌≡◌};
    ghost use Rattle.sim_search.specs.Queues.{cost_in, IsForgotten, IsPlace, IsSet, known, read_entry, size_of};
    ghost use Rattle.{sim_grid.specs.Grids.IsSpot, sim_search.specs.Common.Cell, sim_search.specs.Common.IsOnGround};

    /// Whether the ground has this cell.
    pub(crate) fn has(&self, cell: Cell) -> bool
        ensures { IsTrue result ↔ IsOnGround (size_of self.now) cell }
    {
        cell.x < self.width && cell.z < self.depth
    }

    /// Where a cell of the ground stands in the list.
    pub(crate) fn place(&self, cell: Cell) -> usize
        requires { IsOnGround (size_of self.now) cell }
        ensures { IsPlace (size_of self.now) cell result }
    {
        usize::from(cell.z) * usize::from(self.width) + usize::from(cell.x)
    }

    /// The cost of a cell: None where the search has not come to it, or where it is not one of the ground's.
    pub fn at(&self, cell: Cell) -> Option<u32>
        ensures { result ≡ cost_in self.now cell }
    {
        if self.has(cell) {
            self.read(self.items[self.place(cell)])
        } else {
            None
        }
    }

    /// The same where the cell is one of the ground's, and its place is known.
    #[inline(always)]
    pub(crate) fn at_spot(&self, spot: Spot) -> Option<u32>
        requires { IsSpot (size_of self.now) spot }
        ensures { result ≡ cost_in self.now spot.cell }
    {
        self.read(self.items[spot.place])
    }

    /// The cost of the cell at this place of the list.
    pub(crate) fn at_place(&self, place: usize) -> Option<u32>
        requires { place < vec_len self.now.items }
        ensures { result ≡ slice_index_or (known self.now) place None }
    {
        self.read(self.items[place])
    }

    // The cost of an entry, if it is of this search.
    fn read(&self, entry: Entry) -> Option<u32>
        ensures { result ≡ read_entry self.now.stamp entry }
    {
        if entry.stamp == self.stamp {
            Some(entry.cost)
        } else {
            None
        }
    }

    /// Gives a cell this cost.
    pub(crate) fn set(&mut self, spot: Spot, cost: u32)
        requires { IsSpot (size_of self.old) spot }
        ensures { IsSet self.old self.new spot.cell cost }
    {
        self.items[spot.place] = Entry {
            stamp: self.stamp,
            cost,
        };
    }

    /// Forgets all costs.
    pub(crate) fn forget(&mut self)
        requires { self.old.stamp < 2 ^ 32 - 1 }
        ensures { IsForgotten self.old self.new }
    {
        self.stamp += 1;
    }
}
