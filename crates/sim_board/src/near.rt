//! The place of a row, looked for first where the row of the last change stood, and a little behind it: the changes of a phase
//! ascend by id. Where the last one stood is a hint, so any number is right.

ghost use Rattle.{sim_base.specs.Rows.id_of, sim_plans.specs.Found.found, std.specs.List.HoldsAt, std.specs.List.Sorted.IsStrictlyIncreasing};
ghost use Rattle.std.specs.Prelude.{◌≡◌, ◌<◌, map, length, IfSome, MatchOption, Some, None};

use sim_base::{Change, Row};
use sim_plans::place_of;

// How many rows are looked at from a place on. Where those of two players take turns, the next one of a player is mostly the
// second or third behind the last.
const AHEAD: usize = 8;

/// The place of the row with this id, from 0.
pub fn place_near(rows: &[Row], id: u32, near: usize) -> Option<usize>
    requires { IsStrictlyIncreasing (map id_of rows.now) }
    ensures { MatchOption result (found rows.now id ≡ None) (λ at. (at < length rows.now) × HoldsAt (λ row. found rows.now id ≡ Some row) rows.now at) }
{
    match place_ahead(rows, id, near) {
        Some(at) => Some(at),
        None => place_of(rows, id),
    }
}

// The place of the row with this id, if it stands at a place or a little behind it.
fn place_ahead(rows: &[Row], id: u32, near: usize) -> Option<usize>
    ensures { IfSome result (λ at. (at < length rows.now) × HoldsAt (λ row. row.id ≡ id) rows.now at) }
{
    for at in near..near.saturating_add(AHEAD) {
        match rows.get(at) {
            Some(row) if row.id < id => {}
            Some(row) if row.id == id => return Some(at),
            _ => return None,
        }
    }
    None
}

/// The id of the row that a change is about, if it is about one.
pub fn row_in(change: &Change) -> Option<u32> {
    match change {
        Change::Move { id, .. }
        | Change::Motion { id, .. }
        | Change::Attack { id, .. }
        | Change::Health { id, .. }
        | Change::Owner { id, .. }
        | Change::Remove { id } => Some(*id),
        _ => None,
    }
}
