//! A row by its id. Ids ascend, so it is found by binary search; at once where each id from the first row on has a row.

ghost use Rattle.{sim_plans.specs.Found.found, std.specs.List.HoldsAt};
ghost use Rattle.std.specs.Prelude.{◌≡◌, ◌<◌, map, length, MatchOption, Some, None, option_copied};
ghost use Rattle.sim_plans.specs.Common.{id_of, is_going as is_going_by, is_holding as is_holding_by, IsStrictlyIncreasing, row_of, target_of as target_by};

use sim_base::{Motion, Row, State};

/// The row with this id, if it is alive.
pub fn find_row(state: &State, id: u32) -> Option<&Row>
    requires { IsStrictlyIncreasing (map id_of state.now.rows) }
    ensures { option_copied result ≡ row_of state.now id }
{
    let rows = state.rows.as_slice();
    match place_of(rows, id) {
        Some(at) => Some(&rows[at]),
        None => None,
    }
}

/// The place of the row with this id, from 0. An id below those of all rows is looked for no further, as 0, which stands for nobody: most
/// rows aim at nobody. Next comes the place that the row has if each id from the first row's on has one.
pub fn place_of(rows: &[Row], id: u32) -> Option<usize>
    requires { IsStrictlyIncreasing (map id_of rows.now) }
    ensures { MatchOption result (found rows.now id ≡ None) (λ at. (at < length rows.now) × HoldsAt (λ row. found rows.now id ≡ Some row) rows.now at) }
{
    let [first, ..] = rows else {
        return None;
    };
    if id < first.id {
        return None;
    }
    let at = (id - first.id) as usize;
    match rows.get(at) {
        Some(row) if row.id == id => return Some(at),
        _ => {}
    }
    match rows.binary_search_by_key(&id, |row| row.id) {
        Ok(at) => Some(at),
        Err(_) => None,
    }
}

/// Whom a row attacks, or 0.
pub fn target_of(row: &Row) -> u32
    ensures { result ≡ target_by row.now }
{
    match row.attack {
        Some(aim) => aim.target,
        None => 0,
    }
}

/// Whether a row holds its place: it takes only targets within its range, and chases none.
pub fn is_holding(row: &Row) -> bool
    ensures { result ≡ is_holding_by row.now }
{
    match row.attack {
        Some(aim) => aim.hold,
        None => false,
    }
}

/// Whether a row is on its way to a goal.
pub fn is_going(row: &Row) -> bool
    ensures { result ≡ is_going_by row.now.motion }
{
    match &row.motion {
        Some(Motion::Going { .. }) => true,
        _ => false,
    }
}
