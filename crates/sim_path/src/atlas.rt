//! What is kept of a ground from one search to the next: landmarks, where ways are winding, and how far the cells are from goals that
//! are asked for often. They stand beside the open cells of the ground on which they were found, and tell nothing of another.

ghost use Rattle.{sim_grid.specs.Grids.field_of_grid, sim_path.specs.Atlases.{AreOn, ground_in}, sim_search.specs.Rows.{AreLandmarks, row_in}};
ghost use Rattle.std.specs.{Option.ForSome, Prelude.All};

use crate::dear::Dear;
use crate::kept::KeptCells;
use crate::question::Question;
use sim_base::{Cell, Global, OutOfMemory};
use sim_grid::Grid;
use sim_search::{Distances, Landmarks, Search, distances_to, landmarks_on};

// To how many goals distances are kept at most.
const GOALS: usize = 32;

/// The open cells of a ground, landmarks on it, if they are set, and the distances to the goals to which searches were dear. The oldest give way.
#[derive(Drop)]
pub struct Atlas {
    pub cells: KeptCells,
    pub landmarks: Option<Landmarks>,
    goals: Vec<Distances>,
    next: usize,
    dear: Dear,
    ghost right: { ForSome landmarks (λ l. AreLandmarks (field_of_grid (ground_in cells)) (row_in l)) },
    ghost near: { All (AreOn (field_of_grid (ground_in cells))) goals.items },
}

impl Atlas {
    ghost use Rattle.std.specs.Prelude.{IfOk, IfSome, true, ◌≡◌};
    ghost use Rattle.sim_search.specs.Rows.{AreDistances, number_in, size_about};
    ghost use Rattle.{sim_grid.specs.Grids.field_of_grid, sim_grid.specs.Grids.is_open_at, sim_path.specs.Atlases.AreOn, sim_path.specs.Atlases.ground_in};

    /// That of a grid: the earlier one, if it is of this grid, else one with no landmarks and no distances yet.
    pub fn of(alloc: Global, earlier: Option<Atlas>, grid: &Grid) -> Result<Atlas, OutOfMemory>
        ensures { IfOk result (λ atlas. ground_in atlas.cells ≡ grid.now) }
    {
        if let Some(atlas) = earlier {
            if atlas.cells.are_of(grid) {
                return Ok(atlas);
            }
        }
        let cells = KeptCells::of(alloc, grid)?;
        Ok(Atlas {
            cells,
            landmarks: None,
            goals: Vec::new(alloc),
            next: 0,
            dear: Dear::new(alloc)?,
        })
    }

    /// Sets landmarks that a walk from the start reaches. They are only kept, so want of memory is no refusal.
    pub fn set_landmarks(&mut self, alloc: Global, question: &Question<'_>)
        requires is_open { is_open_at question.now.grid.now question.now.start ≡ true }
        requires ground { ground_in self.old.cells ≡ question.now.grid.now }
    {
        if let Ok(landmarks) = landmarks_on(alloc, question.grid, question.start) {
            self.landmarks = Some(landmarks);
        }
    }

    /// The distances to a goal, if they are kept.
    pub fn distances_to(&self, goal: Cell) -> Option<&Distances>
        ensures size { IfSome result (λ d. size_about d.now ≡ (ground_in self.now.cells).size) }
        ensures distances { IfSome result (λ d. AreDistances (field_of_grid (ground_in self.now.cells)) goal (number_in d.now)) }
    {
        for distances in self.goals.as_slice() {
            if distances.goal == goal {
                return Some(distances);
            }
        }
        None
    }

    /// Notes how many cells a search to the goal opened, and reckons the distances to it after many. They are only kept, so want of
    /// memory is no refusal.
    pub fn note(
        &mut self,
        alloc: Global,
        question: &Question<'_>,
        rooms: &mut Option<Search>,
        opened: usize,
    )
        requires { ground_in self.old.cells ≡ question.now.grid.now }
        ensures { ground_in self.new.cells ≡ question.now.grid.now }
    {
        let (grid, goal) = (question.grid, question.goal);
        if self.distances_to(goal).is_none() && self.dear.add(goal, opened) && grid.open(goal) {
            if let Ok(distances) = distances_to(alloc, grid, rooms, goal) {
                self.keep(distances);
            }
        }
    }

    // Keeps the distances to one more goal, in place of the oldest where there are as many as may be.
    fn keep(&mut self, distances: Distances)
        requires { AreOn (field_of_grid (ground_in self.old.cells)) distances }
        ensures { self.new.cells ≡ self.old.cells }
    {
        let place = self.next % GOALS;
        self.next = place + 1;
        if place < self.goals.len() {
            self.goals[place] = distances;
        } else if self.goals.push(distances).is_err() {
            self.next = 0;
        }
    }
}
