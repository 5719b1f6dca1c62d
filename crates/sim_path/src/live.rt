//! Ways to a goal to which distances are known, read off with no dead ends. Going on from the start over steps along which the distance
//! falls by just what they cost leads to the cells of all shortest ways, and these are marked as live. So a walk back from the goal
//! over live cells comes to the start.

ghost use Rattle.std.specs.Prelude.{Contains, false, IfOk, None, OnOk, Some, true, ◌*◌, ◌<◌, ◌≡◌};
ghost use Rattle.sim_path.specs.Questions.{AreLive, AreLiveBut, field_in, is_dead, IsFall, IsFirstTight, IsNoneMarked, IsSlope, IsSpread, IsSpreadFrom};
ghost use Rattle.sim_path.specs.Questions.{IsStand, IsTightStep, IsTightTrail, IsToldOf, LooksAbout, marked_in, size_of_marks, slope_of, twice};
ghost use Rattle.{sim_base.specs.Places.IsOnGround, sim_base.specs.declared.place.Cell.Cell, sim_search.specs.Rows.number_in, sim_search.specs.Rows.size_about};

use crate::marks::Marks;
use crate::question::Question;
use crate::slope::Slope;
use crate::stand::Stand;
use sim_base::{Cell, OutOfMemory};
use sim_grid::Spot;
use sim_search::{Distances, Guide, Toward, is_free, moves_from, step_beside, step_cost};

// As many cells as a ground has at most.
const MOST_CELLS: u32 = 65_536;

// The cell in a direction, if the distance falls by just what the step to it costs.
#[inline(always)]
fn falling_step(
    question: &Question<'_>,
    distances: &Distances,
    at: Stand,
    which: u8,
) -> Option<Cell>
    requires { LooksAbout question.now distances.now (twice (number_in distances.now)) at which }
    ensures none { result ≡ None → (b : Cell) → IsFall (field_in question.now) question.now.start (number_in distances.now) at.spot.cell b which → ⊥ }
    ensures some { (b : Cell) → result ≡ Some b → IsOnGround question.now.grid.now.size b }
    ensures only { (a b : Cell) → result ≡ Some a → IsFall (field_in question.now) question.now.start (number_in distances.now) at.spot.cell b which → a ≡ b }
{
    let to = step_beside(question.grid, question.start, at.spot, at.moves, which)?;
    let left = 2 * u32::from(distances.at_spot(to));
    if left + step_cost(which) == at.cost {
        Some(to.cell)
    } else {
        None
    }
}

// Marks a cell and lists it, if it was not marked.
#[inline(never)]
fn mark(live: &mut Marks, list: &mut Vec<Cell>, cell: Cell) -> Result<(), OutOfMemory>
    requires cell_on { IsOnGround (size_of_marks live.old) cell }
    requires on { (c : Cell) → Contains list.old.items c → IsOnGround (size_of_marks live.old) c }
    ensures spread { OnOk result (IsSpread (size_of_marks live.old) live.old live.new list.old.items list.new.items) }
    ensures here { OnOk result (marked_in live.new cell ≡ true) }
{
    if !live.at(cell) {
        live.set(cell);
        list.push(cell)?;
    }
    Ok(())
}

// Marks the cells to which the distance falls from this one, and lists those that were not marked.
fn mark_from(
    question: &Question<'_>,
    distances: &Distances,
    live: &mut Marks,
    list: &mut Vec<Cell>,
    cell: Cell,
) -> Result<(), OutOfMemory>
    requires cell { IsToldOf question.now.grid.now.size distances.now cell }
    requires marks { size_of_marks live.old ≡ question.now.grid.now.size }
    requires on { (c : Cell) → Contains list.old.items c → IsOnGround question.now.grid.now.size c }
    ensures { OnOk result (IsSpreadFrom (field_in question.now) question.now.start (number_in distances.now) live.old live.new list.old.items
        list.new.items 8 cell) }
{
    let place = question.grid.place(cell);
    let at = Stand {
        spot: Spot { cell, place },
        moves: moves_from(question.grid, question.start, cell),
        cost: Toward { distances }.estimate(cell),
    };
    for which in 0..8u8 {
        if let Some(to) = falling_step(question, distances, at, which) {
            mark(live, list, to)?;
        }
    }
    Ok(())
}

// Marks the cells of all shortest ways from the start on, and says whether there are no more than a ground has.
fn mark_all(
    question: &Question<'_>,
    distances: &Distances,
    live: &mut Marks,
    list: &mut Vec<Cell>,
) -> Result<bool, OutOfMemory>
    requires none { IsNoneMarked question.now.grid.now.size live.old }
    requires size { size_about distances.now ≡ question.now.grid.now.size }
    ensures { IfOk result (λ all. all ≡ true → AreLive (field_in question.now) question.now.start (number_in distances.now) (marked_in live.new)) }
{
    list.clear();
    live.set(question.start);
    list.push(question.start)?;
    for _ in 0..MOST_CELLS {
        let Some(at) = list.pop() else {
            return Ok(true);
        };
        mark_from(question, distances, live, list, at)?;
    }
    Ok(false)
}

// The cell in a direction, if it is live and a step from there makes up what the way costs up to this one.
#[inline(always)]
fn live_step(
    question: &Question<'_>,
    slope: &Slope<'_>,
    live: &Marks,
    at: Stand,
    which: u8,
) -> Option<Cell>
    requires { LooksAbout question.now slope.now.distances.now (slope_of slope.now) at which }
    ensures none { result ≡ None → (p : Cell) → IsTightStep (field_in question.now) question.now.start (slope_of slope.now) at.spot.cell p which
        → is_dead live.now p ≡ true }
    ensures some { (p : Cell) → result ≡ Some p → IsTightStep (field_in question.now) question.now.start (slope_of slope.now) at.spot.cell p which }
{
    let from = step_beside(question.grid, question.start, at.spot, at.moves, which)?;
    let cost = at.cost.checked_sub(step_cost(which))?;
    if slope.left_at(from) == cost && live.at(from.cell) {
        Some(from.cell)
    } else {
        None
    }
}

// The first such cell in the order of the directions.
fn first_live(question: &Question<'_>, slope: &Slope<'_>, live: &Marks, cell: Cell) -> Option<Cell>
    requires { IsToldOf question.now.grid.now.size slope.now.distances.now cell }
    ensures { IsFirstTight (field_in question.now) question.now.start (slope_of slope.now) (is_dead live.now) cell 8 result }
{
    let place = question.grid.place(cell);
    let at = Stand {
        spot: Spot { cell, place },
        moves: moves_from(question.grid, question.start, cell),
        cost: slope.left(cell),
    };
    for which in 0..8u8 {
        if let Some(from) = live_step(question, slope, live, at, which) {
            return Some(from);
        }
    }
    None
}

/// Whether a shortest way from the start to the goal is read off the distances: a walk back from there over live cells comes to the start. If so,
/// the trail is made of its cells, without the start. False says nothing.
#[inline(never)]
pub fn live_to(
    question: &Question<'_>,
    slope: &Slope<'_>,
    live: &mut Marks,
    trail: &mut Vec<Cell>,
) -> Result<bool, OutOfMemory>
    requires slope { IsSlope (field_in question.now) question.now.start slope.now }
    requires live { IsNoneMarked question.now.grid.now.size live.old }
    ensures { IfOk result (λ found. found ≡ true → IsTightTrail (field_in question.now) question.now.start (slope_of slope.now) question.now.goal
        trail.new.items) }
{
    if !mark_all(question, slope.distances, live, trail)? {
        return Ok(false);
    }
    trail.clear();
    let (start, goal) = (question.start, question.goal);
    if !is_free(question.grid, start, goal) {
        return Ok(false);
    }
    let mut at = goal;
    for _ in 0..MOST_CELLS {
        if at == start {
            return Ok(true);
        }
        let Some(from) = first_live(question, slope, live, at) else {
            return Ok(false);
        };
        trail.push(at)?;
        at = from;
    }
    Ok(false)
}
