//! How far the cells of a ground are from one goal: half the least cost of a walk from there to each. As steps lead both ways at one
//! cost, that is what a walk to the goal costs, and a search that knows it takes the cells of the shortest walks alone.

ghost use Rattle.std.specs.Prelude.{◌≡◌, ◌*◌, ◌≤◌, vec_len};

use crate::costs::Costs;
use crate::row::number;
use sim_base::{Cell, Global, OutOfMemory};
use sim_grid::Spot;

/// A goal, and the numbers of the cells of a ground, by z, then x: 0 where no walk leads.
#[derive(Drop)]
pub struct Distances {
    pub goal: Cell,
    pub width: u16,
    pub depth: u16,
    pub items: Vec<u16>,
    ghost narrow: { width ≤ 256 },
    ghost shallow: { depth ≤ 256 },
    ghost full: { vec_len items ≡ width * depth },
}

impl Distances {
    ghost use Rattle.{sim_grid.specs.Grids.IsSpot, sim_search.specs.{Common.Cell, Queues.{cost_in, size_of}, Rows.{number_in, number_of, size_about}}};
    ghost use Rattle.std.specs.Prelude.{IfOk, ◌≡◌};

    /// Those that the costs of walks from the goal tell.
    pub fn of(alloc: Global, costs: &Costs, goal: Cell) -> Result<Distances, OutOfMemory>
        ensures goal { IfOk result (λ d. d.goal ≡ goal) }
        ensures size { IfOk result (λ d. size_about d ≡ size_of costs.now) }
        ensures numbers { IfOk result (λ d. (c : Cell) → number_in d c ≡ number_of (cost_in costs.now c)) }
    {
        let mut items = Vec::with_capacity(alloc, costs.items.len())?;
        for place in 0..costs.items.len() {
            items.push(number(costs.at_place(place)))?;
        }
        Ok(Distances {
            goal,
            width: costs.width,
            depth: costs.depth,
            items,
        })
    }

    /// The number of a cell: 0 where it is not one of the ground's.
    #[inline(always)]
    pub fn at(&self, cell: Cell) -> u16
        ensures { result ≡ number_in self.now cell }
    {
        if cell.x < self.width && cell.z < self.depth {
            self.items[usize::from(cell.z) * usize::from(self.width) + usize::from(cell.x)]
        } else {
            0
        }
    }

    /// The number of a cell of the ground whose place is known.
    #[inline(always)]
    pub fn at_spot(&self, spot: Spot) -> u16
        requires { IsSpot (size_about self.now) spot }
        ensures { result ≡ number_in self.now spot.cell }
    {
        self.items[spot.place]
    }
}
