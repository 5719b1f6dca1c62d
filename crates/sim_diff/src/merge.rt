//! The walk over the entities of two states: one pass over both lists of rows, which ascend by id.

ghost use Rattle.{sim_base.specs.Rows.id_of, sim_bytes.specs.Rows.HasShortWay, sim_diff.specs.Difference.{difference_in, difference_of, HaveSameBits}};
ghost use Rattle.sim_diff.specs.{Difference.IsLeastDifference, Merge.{AreComparable, AreRowsOf, next_id, rows_behind}};
ghost use Rattle.std.specs.{List.Sorted.IsStrictlyIncreasing, Prelude.{All, IfSome, IsNone, map, Some, ◌↔◌, ◌≡◌}};

use crate::place::{Place, first_difference};
use crate::same::have_same_first;
use sim_base::{Row, State};

// The entity that comes next in either list.
fn next_entity(lefts: &[Row], rights: &[Row]) -> Option<u32>
    ensures { result ≡ next_id lefts.now rights.now }
{
    match (lefts, rights) {
        ([], []) => None,
        ([left, ..], []) => Some(left.id),
        ([], [right, ..]) => Some(right.id),
        ([left, ..], [right, ..]) => Some(left.id.min(right.id)),
    }
}

// The rows behind that of the entity, if the first is its row.
fn behind(rows: &[Row], entity: u32) -> &[Row]
    ensures { result.now ≡ rows_behind entity rows.now }
{
    match rows {
        [row, more @ ..] if row.id == entity => more,
        _ => rows,
    }
}

// The first part that differs of the next entity. Where both lists begin with the same row, no bytes are told.
fn next_difference(
    left: &State,
    right: &State,
    lefts: &[Row],
    rights: &[Row],
    entity: u32,
) -> Option<Place>
    requires comparable { AreComparable left.now right.now }
    requires lefts { AreRowsOf left.now lefts.now }
    requires rights { AreRowsOf right.now rights.now }
    requires next { next_id lefts.now rights.now ≡ Some entity }
    ensures { result ≡ difference_in left.now right.now entity }
{
    if 1 < entity && have_same_first(lefts, rights) {
        return None;
    }
    first_difference(left, right, entity)
}

/// The least place at which the bytes of two states differ, the entities by their number and the parts of each in their
/// order. Entity 1 has the clock. States that are valid meet the conditions. It takes no memory.
pub fn difference(left: &State, right: &State) -> Option<Place>
    requires left_ascending { IsStrictlyIncreasing (map id_of left.now.rows) }
    requires left_short { All HasShortWay left.now.rows }
    requires right_ascending { IsStrictlyIncreasing (map id_of right.now.rows) }
    requires right_short { All HasShortWay right.now.rows }
    ensures place { result ≡ difference_of left.now right.now }
    ensures least { IfSome result (IsLeastDifference left.now right.now) }
    ensures none { IsNone result ↔ HaveSameBits left.now right.now }
{
    // The clock is that of entity 1. In a valid state no row has an id below 2.
    'first: for entity in 0..2 {
        if let Some(place) = first_difference(left, right, entity) {
            return Some(place);
        }
    }
    let mut lefts = left.rows.as_slice();
    let mut rights = right.rows.as_slice();
    'rows: while let Some(entity) = next_entity(lefts, rights) {
        if let Some(place) = next_difference(left, right, lefts, rights, entity) {
            return Some(place);
        }
        lefts = behind(lefts, entity);
        rights = behind(rights, entity);
    }
    None
}
