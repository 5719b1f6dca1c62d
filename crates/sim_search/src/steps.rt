//! The steps that are allowed over a grid.

ghost use Rattle.{sim_grid.specs.{declared.spot.Spot.Spot, Grids.{IsSpot, LooksFrom}}, sim_search.specs.Common.beside_open};
ghost use Rattle.sim_search.specs.{Common.{field_of_grid, is_free as is_free_in, IsOnGround, step_cost as cost_of_step}, Moves.{AreMoves, step_to}};
ghost use Rattle.std.specs.{Option.is_some, Prelude.{IfSome, None, Some, ◌<◌, ◌≡◌}};

use sim_base::Cell;
use sim_grid::{Grid, Spot};

/// What a step in this direction costs: 10 where it is straight, 14 where it is diagonal.
pub fn step_cost(which: u8) -> u32
    ensures { result ≡ cost_of_step which }
{
    if which < 4 { 10 } else { 14 }
}

/// The steps that are allowed from a cell, as a bit for each direction, the lowest for the first. They are those that the
/// grid keeps, but where the start is closed, which counts as open.
pub fn moves_from(grid: &Grid, start: Cell, from: Cell) -> u8
    requires start { IsOnGround grid.now.size start }
    requires from { IsOnGround grid.now.size from }
    ensures { AreMoves (field_of_grid grid.now) start from result }
{
    if grid.open(start) {
        grid.steps(from)
    } else {
        moves_by_trial(grid, start, from)
    }
}

/// The same, each step looked at by itself.
#[cold]
#[inline(never)]
pub(crate) fn moves_by_trial(grid: &Grid, start: Cell, from: Cell) -> u8
    requires { IsOnGround grid.now.size from }
    ensures { AreMoves (field_of_grid grid.now) start from result }
{
    let mut moves = 0u8;
    for which in 0..8u8 {
        if is_allowed(grid, start, from, which) {
            moves |= 1 << which;
        }
    }
    moves
}

// Whether a step from this cell in that direction is allowed.
fn is_allowed(grid: &Grid, start: Cell, from: Cell, which: u8) -> bool
    requires { LooksFrom grid.now.size from which }
    ensures { result ≡ is_some (step_to (field_of_grid grid.now) start from which) }
{
    match grid.neighbour(from, which) {
        Some(to) => {
            is_free(grid, start, to) && (which < 4 || is_beside_free(grid, start, from, to))
        }
        None => false,
    }
}

/// The cell to which a step from this one in that direction leads, if it is one of the moves.
pub fn step(grid: &Grid, start: Cell, from: Cell, moves: u8, which: u8) -> Option<Cell>
    requires which_in { which < 8 }
    requires from_on { IsOnGround grid.now.size from }
    requires moves { AreMoves (field_of_grid grid.now) start from moves }
    ensures step { result ≡ step_to (field_of_grid grid.now) start from which }
    ensures on { IfSome result (λ to. IsOnGround grid.now.size to) }
{
    if moves >> which & 1 == 1 {
        Some(grid.beside(from, which))
    } else {
        None
    }
}

/// The same by places.
#[inline(always)]
pub fn step_beside(grid: &Grid, start: Cell, from: Spot, moves: u8, which: u8) -> Option<Spot>
    requires which_in { which < 8 }
    requires from { IsSpot grid.now.size from }
    requires moves { AreMoves (field_of_grid grid.now) start from.cell moves }
    ensures none { result ≡ None → step_to (field_of_grid grid.now) start from.cell which ≡ None }
    ensures some { (to : Spot) → result ≡ Some to → step_to (field_of_grid grid.now) start from.cell which ≡ Some to.cell }
    ensures spot { IfSome result (λ to. IsSpot grid.now.size to) }
{
    if moves >> which & 1 == 1 {
        Some(grid.spot_beside(from, which))
    } else {
        None
    }
}

/// Whether a cell may be entered. The start may, whether it is open or not.
pub fn is_free(grid: &Grid, start: Cell, cell: Cell) -> bool
    requires { IsOnGround grid.now.size cell }
    ensures { result ≡ is_free_in (field_of_grid grid.now) start cell }
{
    cell == start || grid.open(cell)
}

// Whether both cells beside a diagonal step may be entered.
fn is_beside_free(grid: &Grid, start: Cell, from: Cell, to: Cell) -> bool
    requires from_on { IsOnGround grid.now.size from }
    requires to_on { IsOnGround grid.now.size to }
    ensures { result ≡ beside_open (is_free_in (field_of_grid grid.now) start) from to }
{
    is_free(grid, start, Cell { x: from.x, z: to.z })
        && is_free(grid, start, Cell { x: to.x, z: from.z })
}
