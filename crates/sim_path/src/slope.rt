//! What walks from a start cost at least, by the distances to a goal that a way from there has. As these are exact, it is just what a
//! walk costs to each cell of a shortest way.

ghost use Rattle.{sim_base.specs.{declared.place.Cell.Cell, Places.{IsOnGround, octile as octile_of}}, sim_grid.specs.Grids.IsSpot};
ghost use Rattle.{sim_path.specs.Questions.{field_in, IsTight, IsTightStep, LooksAbout, marked_in, slope_of}, sim_search.specs.Rows.{number_in, size_about}};
ghost use Rattle.std.specs.Prelude.{false, IsTrue, None, Some, true, ◌*◌, ◌+◌, ◌<◌, ◌↔◌, ◌≡◌, ◌≢◌, ◌≤◌};

use crate::floor::{Descent, Floor};
use crate::marks::Marks;
use crate::question::Question;
use crate::stand::Stand;
use sim_base::Cell;
use sim_grid::{Spot, octile};
use sim_search::{Distances, Guide, Toward, moves_from, step_beside, step_cost};

/// The distances to a goal, and what a way there costs from a start.
#[derive(Clone, Copy)]
pub struct Slope<'a> {
    pub distances: &'a Distances,
    pub whole: u32,
}

impl<'a> Slope<'a> {
    ghost use Rattle.std.specs.Prelude.{◌*◌, ◌-◌, ◌≡◌};
    ghost use Rattle.{sim_grid.specs.Grids.IsSpot, sim_path.specs.Questions.slope_of, sim_search.specs.Rows.number_in, sim_search.specs.Rows.size_about};

    /// That of ways from a start.
    pub fn of(distances: &'a Distances, start: Cell) -> Slope<'a>
        ensures distances { result.distances.now ≡ distances.now }
        ensures whole { result.whole ≡ 2 * number_in distances.now start }
    {
        let whole = Toward { distances }.estimate(start);
        Slope { distances, whole }
    }

    /// What the way from the start leaves for a walk to a cell, if it leads through it.
    #[inline(always)]
    pub fn left(&self, cell: Cell) -> u32
        ensures { result ≡ slope_of self.now cell }
    {
        let distances = self.distances;
        self.whole
            .saturating_sub(Toward { distances }.estimate(cell))
    }

    /// The same for a cell of the ground whose place is known.
    #[inline(always)]
    pub fn left_at(&self, spot: Spot) -> u32
        requires { IsSpot (size_about self.now.distances.now) spot }
        ensures { result ≡ slope_of self.now spot.cell }
    {
        self.whole
            .saturating_sub(2 * u32::from(self.distances.at_spot(spot)))
    }
}

// Whether the distance of a cell tells that a step of this cost from there does not make up such a cost of the way. Of the cells about one
// it tells so of nearly all, and nothing else is read of these.
#[inline(always)]
fn falls_short(slope: &Slope<'_>, from: Spot, step: u32, cost: u32) -> bool
    requires { IsSpot (size_about slope.now.distances.now) from }
    ensures { result ≡ true → slope_of slope.now from.cell + step ≢ cost }
{
    let Slope { distances, whole } = *slope;
    let number = u64::from(distances.at_spot(from));
    2 * number + u64::from(cost) < u64::from(whole) + u64::from(step)
}

// Whether the way leaves such a cost for a cell that isn't dead, and that is enough for the octile distance. Few cells come so far, so
// it is no part of the loop.
#[inline(never)]
fn makes_up(slope: &Slope<'_>, start: Cell, cell: Cell, cost: u32, dead: &Marks) -> bool
    ensures { IsTrue result ↔ (slope_of slope.now cell ≡ cost) × (marked_in dead.now cell ≡ false) × (octile_of cell start ≤ cost) }
{
    slope.left(cell) == cost && !dead.at(cell) && octile(cell, start) <= cost
}

// The cell in a direction from which a step makes up what the way leaves for this one, if the octile distance leaves enough for it and it
// isn't dead.
#[inline(always)]
fn slope_step(
    question: &Question<'_>,
    slope: &Slope<'_>,
    at: Stand,
    which: u8,
    dead: &Marks,
) -> Option<Cell>
    requires { LooksAbout question.now slope.now.distances.now (slope_of slope.now) at which }
    ensures none { result ≡ None → (p : Cell) → IsTightStep (field_in question.now) question.now.start (slope_of slope.now) at.spot.cell p which
        → IsTight (field_in question.now) question.now.start (slope_of slope.now) p → marked_in dead.now p ≡ true }
    ensures some { (p : Cell) → result ≡ Some p → IsTightStep (field_in question.now) question.now.start (slope_of slope.now) at.spot.cell p which }
{
    let start = question.start;
    let from = step_beside(question.grid, start, at.spot, at.moves, which)?;
    let step = step_cost(which);
    if falls_short(slope, from, step, at.cost) {
        return None;
    }
    let cost = at.cost.checked_sub(step)?;
    if makes_up(slope, start, from.cell, cost, dead) {
        Some(from.cell)
    } else {
        None
    }
}

impl<'a> Floor for Slope<'a> {
    ghost use Rattle.sim_path.specs.{Questions.IsSlope, Questions.slope_from, SlopeLaws.slope-floor};

    ghost floor_of = { slope_from };

    ghost holds = { IsSlope };

    fn floor(self, _start: Cell, cell: Cell) -> u32 {
        self.left(cell)
    }

    fn is_floor(self, _start: Cell, cell: Cell, cost: u32) -> bool {
        self.left(cell) == cost
    }

    ghost is_least = { slope-floor };
}

impl<'a> Descent for Slope<'a> {
    // Where a way is winding the octile distance tells dead ends too late.
    fn tries(self, start: Cell, end: Cell) -> u32 {
        let straight = octile(end, start);
        if self.whole.saturating_sub(straight) < straight / 2 {
            self.whole.saturating_mul(3)
        } else {
            0
        }
    }

    fn first_tight(self, question: &Question<'_>, at: Cell, dead: &Marks) -> Option<Cell> {
        let place = question.grid.place(at);
        let stand = Stand {
            spot: Spot { cell: at, place },
            moves: moves_from(question.grid, question.start, at),
            cost: self.left(at),
        };
        for which in 0..8u8 {
            if let Some(from) = slope_step(question, &self, stand, which, dead) {
                return Some(from);
            }
        }
        None
    }
}
