//! Whether two rows are the same, field by field, and whether two states are. Where they are, no bytes need be told, which
//! is so of nearly all rows of two states that are compared.

ghost use Rattle.std.specs.Prelude.{◌≡◌, ◌↔◌, IsTrue};
ghost use Rattle.sim_diff.specs.Merge.{HaveSameFirst};

use sim_base::{Aim, Fixed, Motion, Point, Row, State};

fn are_same_points(left: &[Point], right: &[Point]) -> bool
    ensures { IsTrue result ↔ (left.now ≡ right.now) }
{
    left == right
}

fn is_same_motion(left: &Motion, right: &Motion) -> bool
    ensures { IsTrue result ↔ (left.now ≡ right.now) }
{
    match left {
        Motion::Still => match right {
            Motion::Still => true,
            Motion::Going { .. } => false,
        },
        Motion::Going { goal, way, whole } => match right {
            Motion::Still => false,
            Motion::Going {
                goal: other_goal,
                way: other_way,
                whole: other_whole,
            } => *goal == *other_goal
                && *whole == *other_whole
                && are_same_points(way.as_slice(), other_way.as_slice()),
        },
    }
}

fn has_same_motion(left: &Option<Motion>, right: &Option<Motion>) -> bool
    ensures { IsTrue result ↔ (left.now ≡ right.now) }
{
    match left {
        None => right.is_none(),
        Some(left) => match right {
            None => false,
            Some(right) => is_same_motion(left, right),
        },
    }
}

fn has_same_health(left: Option<Fixed>, right: Option<Fixed>) -> bool
    ensures { IsTrue result ↔ (left ≡ right) }
{
    left == right
}

fn has_same_attack(left: Option<Aim>, right: Option<Aim>) -> bool
    ensures { IsTrue result ↔ (left ≡ right) }
{
    left == right
}

// Whether all that a row says but its motion is the same.
fn has_same_place(left: &Row, right: &Row) -> bool
    ensures { IsTrue result ↔ ((left.now.id ≡ right.now.id) × (left.now.template ≡ right.now.template) × (left.now.at ≡ right.now.at)
        × (left.now.owner ≡ right.now.owner)) }
{
    left.id == right.id
        && left.template == right.template
        && left.at == right.at
        && left.owner == right.owner
}

fn is_same_row(left: &Row, right: &Row) -> bool
    ensures { IsTrue result ↔ (left.now ≡ right.now) }
{
    has_same_place(left, right)
        && has_same_health(left.health, right.health)
        && has_same_motion(&left.motion, &right.motion)
        && has_same_attack(left.attack, right.attack)
}

/// Whether both lists begin with the same row.
pub fn have_same_first(lefts: &[Row], rights: &[Row]) -> bool
    ensures { IsTrue result ↔ HaveSameFirst lefts.now rights.now }
{
    match (lefts, rights) {
        ([left, ..], [right, ..]) => is_same_row(left, right),
        _ => false,
    }
}

fn are_same_rows(left_rows: &[Row], right_rows: &[Row]) -> bool
    ensures { IsTrue result ↔ (left_rows.now ≡ right_rows.now) }
{
    let mut lefts = left_rows;
    let mut rights = right_rows;
    'rows: while let ([left, lefts_behind @ ..], [right, rights_behind @ ..]) = (lefts, rights) {
        if !is_same_row(left, right) {
            return false;
        }
        lefts = lefts_behind;
        rights = rights_behind;
    }
    lefts.is_empty() && rights.is_empty()
}

fn has_same_clock(left: &State, right: &State) -> bool
    ensures { IsTrue result ↔ ((left.now.turn ≡ right.now.turn) × (left.now.next ≡ right.now.next) × (left.now.word ≡ right.now.word)) }
{
    left.turn == right.turn && left.next == right.next && left.word == right.word
}

/// Whether two states are the same. Those of different turns are told apart at once. It takes no memory.
pub fn is_same(left: &State, right: &State) -> bool
    ensures { IsTrue result ↔ (left.now ≡ right.now) }
{
    has_same_clock(left, right) && are_same_rows(left.rows.as_slice(), right.rows.as_slice())
}
