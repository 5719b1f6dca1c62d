//! Ways that are remembered, each by the two cells between which it leads. Where several ask for ways over one ground, as the clients
//! of a session do, each way is so searched once. They stand beside the open cells of their ground, and tell nothing of another.

ghost use Rattle.std.specs.Prelude.{All, IfSome, vec_len, ◌<◌, ◌≡◌};
ghost use Rattle.sim_path.specs.{Atlases.ground_in, Questions.IsRight};

use crate::kept::KeptCells;
use crate::question::Question;
use crate::trip::Trip;
use sim_base::{Cell, Global, MAX_WAYPOINTS, OutOfMemory};
use sim_grid::Grid;

// How many ways have a place at most.
const PLACES: usize = 2_048;

// How many cells of ways are kept at most.
const MOST_CELLS: usize = 131_072;

/// A way between two cells, and where its first cells stand among those of all.
#[derive(Clone, Copy)]
pub struct KeptWay {
    pub from: Cell,
    pub to: Cell,
    pub whole: bool,
    pub begin: usize,
    pub end: usize,
}

/// Ways over one ground. Each has a place that its two cells give, where another may follow it.
#[derive(Drop)]
pub struct Remembered {
    pub over: KeptCells,
    pub cells: Vec<Cell>,
    pub places: Vec<Option<KeptWay>>,
    ghost full: { vec_len places ≡ 2048 },
    ghost right: { ∥ All (λ o. IfSome o (IsRight (ground_in over) cells.items)) places.items ∥₁ },
}

impl Remembered {
    ghost use Rattle.std.specs.Prelude.{IfOk, IfSome, true, ◌≡◌};
    ghost use Rattle.{sim_grid.specs.Grids.field_of_grid, sim_path.specs.Questions.AreFirst, sim_path.specs.Questions.IsKnown};

    /// Those of this ground: the earlier ones, if they are of it and there is room for one more, else none yet.
    pub fn of(
        alloc: Global,
        earlier: Option<Remembered>,
        grid: &Grid,
    ) -> Result<Remembered, OutOfMemory>
        ensures { IfOk result (λ ways. ground_in ways.over ≡ grid.now) }
    {
        if let Some(ways) = earlier {
            if ways.goes_on(grid) {
                return Ok(ways);
            }
        }
        let over = KeptCells::of(alloc, grid)?;
        let places = vec![in alloc; None; PLACES]?;
        Ok(Remembered {
            over,
            cells: Vec::new(alloc),
            places,
        })
    }

    // Whether they are of this ground, and there is room for one more.
    fn goes_on(&self, grid: &Grid) -> bool
        ensures { result ≡ true → ground_in self.now.over ≡ grid.now }
    {
        self.cells.len() <= MOST_CELLS - MAX_WAYPOINTS && self.over.are_of(grid)
    }

    /// The way between two cells, if it is remembered and of this ground. The ground is compared only where it is.
    pub fn trip(&self, question: &Question<'_>) -> Option<Trip<'_>>
        ensures { IfSome result (λ trip. IsKnown question.now trip.cells.now trip.whole) }
    {
        let (from, to) = (question.start, question.goal);
        let kept = self.places[place_of(from, to)]?;
        if kept.from == from && kept.to == to && self.over.are_of(question.grid) {
            Some(Trip {
                cells: &self.cells[kept.begin..kept.end],
                whole: kept.whole,
            })
        } else {
            None
        }
    }

    /// Remembers a way between two cells.
    pub fn keep(&mut self, from: Cell, to: Cell, trip: Trip<'_>) -> Result<(), OutOfMemory>
        requires { ∥ AreFirst (field_of_grid (ground_in self.old.over)) from to trip.cells.now trip.whole ∥₁ }
    {
        let begin = self.cells.len();
        self.cells.extend_from_slice(trip.cells)?;
        self.places[place_of(from, to)] = Some(KeptWay {
            from,
            to,
            whole: trip.whole,
            begin,
            end: self.cells.len(),
        });
        Ok(())
    }
}

// A number for a cell, another for each of a ground.
fn number_of(cell: Cell) -> u32 {
    u32::from(cell.z) << 16 | u32::from(cell.x)
}

// The place of a way between two cells. The factors are odd, so that no bit is lost.
fn place_of(from: Cell, to: Cell) -> usize
    ensures { result < 2048 }
{
    let mixed = number_of(from).wrapping_mul(0x9e37_79b1) ^ number_of(to);
    let mixed = (mixed ^ mixed >> 15).wrapping_mul(0x85eb_ca6b);
    (mixed >> 16) as usize % PLACES
}
