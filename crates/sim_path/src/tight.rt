//! Ways back from an end that cost as little as it is known that they must. The cells from which such a way may come are
//! tried in the order of the directions, and those to which none leads are noted. So the way to an end is found before
//! all cells are taken that cost as much.

ghost use Rattle.{sim_base.specs.{declared.place.Cell.Cell, Places.IsOnGround}, sim_path.specs.Questions.{field_behind, field_in, floor_cost, IsFirstTight}};
ghost use Rattle.sim_path.specs.{Questions.{IsItsTrail, IsNoneMarked, IsTightStep, IsTightTrail, marked_in, MayGoBack}, WayEnds.IsBestOf};
ghost use Rattle.std.specs.Prelude.{IfOk, None, Some, true, ◌≡◌};

use crate::end::better_than;
use crate::floor::{Descent, Floor};
use crate::marks::Marks;
use crate::question::Question;
use crate::reached::Reached;
use crate::step_back::StepBack;
use sim_base::{Cell, OutOfMemory};
use sim_search::{is_free, moves_from, step_cost};

// The cell in a direction from which a step makes up the floor of this one, if it isn't dead.
fn tight_step<F: Floor>(back: &StepBack<'_>, floor: F, dead: &Marks) -> Option<Cell>
    requires { back.now.at.cost ≡ F.floor_of floor back.now.question.now.start back.now.at.cell }
    ensures none { result ≡ None → (p : Cell) → IsTightStep (field_behind back.now) back.now.question.now.start
        (F.floor_of floor back.now.question.now.start) back.now.at.cell p back.now.which → marked_in dead.now p ≡ true }
    ensures some { (p : Cell) → result ≡ Some p → IsTightStep (field_behind back.now) back.now.question.now.start
        (F.floor_of floor back.now.question.now.start) back.now.at.cell p back.now.which }
{
    let from = back.step()?;
    let cost = back.at.cost.checked_sub(step_cost(back.which))?;
    if floor.is_floor(back.question.start, from, cost) && !dead.at(from) {
        Some(from)
    } else {
        None
    }
}

/// The first cell in the order of the directions from which a step makes up the floor of this one, but for the dead ones.
pub fn first_known<F: Floor>(
    question: &Question<'_>,
    floor: F,
    at: Reached,
    dead: &Marks,
) -> Option<Cell>
    requires at_on { IsOnGround question.now.grid.now.size at.cell }
    requires cost { at.cost ≡ F.floor_of floor question.now.start at.cell }
    ensures { IsFirstTight (field_in question.now) question.now.start (F.floor_of floor question.now.start) (marked_in dead.now) at.cell 8 result }
{
    let moves = moves_from(question.grid, question.start, at.cell);
    for which in 0..8u8 {
        let back = StepBack {
            question: &*question,
            at,
            moves,
            which,
        };
        if let Some(from) = tight_step(&back, floor, dead) {
            return Some(from);
        }
    }
    None
}

// Whether a walk to the end costs as little as its floor. If so, the trail is made of the cells from the end back to the
// start, without the start. False says nothing.
fn tight_trail<F: Descent>(
    question: &Question<'_>,
    floor: F,
    dead: &mut Marks,
    trail: &mut Vec<Cell>,
    end: Cell,
) -> Result<bool, OutOfMemory>
    requires end { IsOnGround question.now.grid.now.size end }
    requires dead { IsNoneMarked question.now.grid.now.size dead.old }
    requires floor { F.holds (field_in question.now) question.now.start floor }
    ensures { IfOk result (λ found. found ≡ true → IsTightTrail (field_in question.now) question.now.start (F.floor_of floor question.now.start) end
        trail.new.items) }
{
    trail.clear();
    let start = question.start;
    if !is_free(question.grid, start, end) {
        return Ok(false);
    }
    let mut at = end;
    for _ in 0..floor.tries(start, end) {
        if at == start {
            return Ok(true);
        }
        match floor.first_tight(question, at, dead) {
            Some(from) => {
                trail.push(at)?;
                at = from;
            }
            None => {
                dead.set(at);
                let Some(last) = trail.pop() else {
                    return Ok(false);
                };
                at = last;
            }
        }
    }
    Ok(false)
}

// The end to which such a way would lead: of those that are as near to the goal, the one with the least floor.
fn tight_end<F: Floor>(question: &Question<'_>, floor: F) -> Option<Reached>
    ensures { IsBestOf (floor_cost (F.floor_of floor question.now.start)) question.now.goal question.now.ends.now result }
{
    let mut best: Option<Reached> = None;
    for cell in question.ends {
        let cell = *cell;
        let cost = floor.floor(question.start, cell);
        best = Some(better_than(question.goal, best, Reached { cell, cost }));
    }
    best
}

/// Whether a way is found to one of these ends that costs as little as its floor. If so, the trail is made of its cells,
/// back from that end. False says nothing.
#[inline(never)]
pub fn tight_to<F: Descent>(
    question: &Question<'_>,
    floor: F,
    dead: &mut Marks,
    trail: &mut Vec<Cell>,
) -> Result<bool, OutOfMemory>
    requires dead { IsNoneMarked question.now.grid.now.size dead.old }
    requires known { MayGoBack F.holds question.now floor }
    ensures { IfOk result (λ found. found ≡ true → IsItsTrail question.now trail.new.items) }
{
    match tight_end(question, floor) {
        Some(end) if question.grid.has(end.cell) => {
            tight_trail(question, floor, dead, trail, end.cell)
        }
        _ => Ok(false),
    }
}
