//! What walks from a start cost at least, by what a search knows that has come to a key.

ghost use Rattle.std.specs.Prelude.{IsTrue, None, Some, true, ◌↔◌, ◌≡◌};
ghost use Rattle.sim_base.specs.{Places.IsOnGround, declared.place.Cell.Cell};
ghost use Rattle.sim_path.specs.Questions.{field_behind, field_in, floor_of, IsFirstTight, IsFront, IsNearStep, IsUnknown, left_of, marked_in, MayDescend};

use crate::away::away_from;
use crate::floor::{Descent, Floor};
use crate::marks::Marks;
use crate::question::Question;
use crate::reached::Reached;
use crate::step_back::StepBack;
use crate::tight::first_known;
use sim_base::Cell;
use sim_grid::octile;
use sim_search::{Aim, Costs, Guide, moves_from, step_cost};

/// The costs that a search knows, where it has taken the cells of lower keys than this one.
#[derive(Clone, Copy)]
pub struct Front<'a> {
    pub costs: &'a Costs,
    pub aim: Aim,
    pub key: u32,
}

// What is left of the key for a cell. A walk to one that was not taken costs no less.
fn left_at(front: &Front, cell: Cell) -> u32
    ensures { result ≡ left_of front.now cell }
{
    front.key.saturating_sub(front.aim.estimate(cell))
}

// Whether a cell has no cost yet, and what is left of the key for it is what a walk there costs at least. A cell that is
// nearer to the goal than the ends are is not counted.
fn is_unknown(front: &Front, start: Cell, cell: Cell, left: u32) -> bool
    requires { left ≡ left_of front.now cell }
    ensures { IsTrue result ↔ IsUnknown front.now start cell }
{
    front.costs.at(cell).is_none()
        && octile(cell, start) <= left
        && front.aim.near <= octile(cell, front.aim.goal)
}

// The cell in a direction, if the octile distance leaves as much of a cost for it as a step from there takes, and it isn't
// dead.
fn near_step(back: &StepBack<'_>, dead: &Marks) -> Option<Cell>
    ensures none { result ≡ None → (p : Cell) → IsNearStep (field_behind back.now) back.now.question.now.start back.now.at p back.now.which
        → marked_in dead.now p ≡ true }
    ensures some { (p : Cell) → result ≡ Some p → IsNearStep (field_behind back.now) back.now.question.now.start back.now.at p back.now.which }
{
    let from = back.step()?;
    let straight = octile(from, back.question.start);
    if straight + step_cost(back.which) <= back.at.cost && !dead.at(from) {
        Some(from)
    } else {
        None
    }
}

// The first cell in the order of the directions from which a step makes up the floor of this one, but for the dead ones, where
// this one has no cost yet: such a step comes from straight beyond it, as seen from the goal.
fn first_unknown(question: &Question<'_>, front: &Front, at: Reached, dead: &Marks) -> Option<Cell>
    requires known { MayDescend IsFront question.now front.now at.cell }
    requires unknown { IsUnknown front.now question.now.start at.cell }
    requires cost { at.cost ≡ left_of front.now at.cell }
    ensures { IsFirstTight (field_in question.now) question.now.start (floor_of front.now question.now.start) (marked_in dead.now) at.cell 8 result }
{
    let moves = moves_from(question.grid, question.start, at.cell);
    let away = away_from(at.cell, front.aim.goal);
    for which in 0..8u8 {
        if away >> which & 1 == 1 {
            let back = StepBack {
                question: &*question,
                at,
                moves,
                which,
            };
            if let Some(from) = near_step(&back, dead) {
                return Some(from);
            }
        }
    }
    None
}

impl<'a> Floor for Front<'a> {
    ghost use Rattle.sim_path.specs.Questions.{floor_of, IsFront};

    ghost floor_of = { floor_of };

    ghost holds = { IsFront };

    // The octile distance is reckoned only where it matters.
    fn floor(self, start: Cell, cell: Cell) -> u32 {
        let left = left_at(&self, cell);
        match self.costs.at(cell) {
            Some(cost) if cost <= left => cost,
            Some(cost) => cost.min(left.max(octile(cell, start))),
            None => left.max(octile(cell, start)),
        }
    }

    fn is_floor(self, start: Cell, cell: Cell, cost: u32) -> bool {
        match self.costs.at(cell) {
            Some(known) if known < cost => false,
            Some(known) if known == cost => {
                cost <= left_at(&self, cell) || cost <= octile(cell, start)
            }
            _ => {
                let left = left_at(&self, cell);
                left <= cost && left.max(octile(cell, start)) == cost
            }
        }
    }

    ghost is_least = { λ field start front known. known.floor };
}

impl<'a> Descent for Front<'a> {
    fn tries(self, start: Cell, end: Cell) -> u32 {
        self.floor(start, end) / 10 + 48
    }

    fn first_tight(self, question: &Question<'_>, at: Cell, dead: &Marks) -> Option<Cell> {
        let cost = left_at(&self, at);
        if is_unknown(&self, question.start, at, cost) {
            return first_unknown(question, &self, Reached { cell: at, cost }, dead);
        }
        let cost = self.floor(question.start, at);
        first_known(question, self, Reached { cell: at, cost }, dead)
    }
}
