//! Whether two grounds are the same: their lands, and their obstructions, field by field.

ghost use Rattle.std.specs.Prelude.{◌≡◌, ◌↔◌, IsTrue};

use sim_base::{Fixed, Land, Rect};
use sim_system::Fact;

fn is_same_rect(one: &Rect, other: &Rect) -> bool
    ensures { IsTrue result ↔ (one.now ≡ other.now) }
{
    one.x0 == other.x0 && one.z0 == other.z0 && one.x1 == other.x1 && one.z1 == other.z1
}

fn are_same_rects(one: &[Rect], other: &[Rect]) -> bool
    ensures { IsTrue result ↔ (one.now ≡ other.now) }
{
    let mut ones = one;
    let mut others = other;
    'rects: while let ([first, ones_behind @ ..], [second, others_behind @ ..]) = (ones, others) {
        if !is_same_rect(first, second) {
            return false;
        }
        ones = ones_behind;
        others = others_behind;
    }
    ones.is_empty() && others.is_empty()
}

fn are_same_ids(one: &[u32], other: &[u32]) -> bool
    ensures { IsTrue result ↔ (one.now ≡ other.now) }
{
    one == other
}

/// Whether two lands are the same.
pub fn is_same_land(one: &Land, other: &Land) -> bool
    ensures { IsTrue result ↔ (one.now ≡ other.now) }
{
    one.width == other.width
        && one.depth == other.depth
        && are_same_rects(one.closed.as_slice(), other.closed.as_slice())
        && are_same_ids(one.masks.as_slice(), other.masks.as_slice())
}

fn has_same_rect(one: &Option<Rect>, other: &Option<Rect>) -> bool
    ensures { IsTrue result ↔ (one.now ≡ other.now) }
{
    match one {
        None => other.is_none(),
        Some(one) => match other {
            None => false,
            Some(other) => is_same_rect(one, other),
        },
    }
}

fn has_same_sight(one: Option<Fixed>, other: Option<Fixed>) -> bool
    ensures { IsTrue result ↔ (one ≡ other) }
{
    one == other
}

// Whether all that two facts say but the rectangle is the same.
fn is_same_else(one: &Fact, other: &Fact) -> bool
    ensures { IsTrue result ↔ ((one.now.id ≡ other.now.id) × (one.now.at ≡ other.now.at) × (one.now.owner ≡ other.now.owner)
        × (one.now.health ≡ other.now.health) × (one.now.vision ≡ other.now.vision) × (one.now.target ≡ other.now.target)) }
{
    one.id == other.id
        && one.at == other.at
        && one.owner == other.owner
        && one.health == other.health
        && has_same_sight(one.vision, other.vision)
        && one.target == other.target
}

fn is_same_fact(one: &Fact, other: &Fact) -> bool
    ensures { IsTrue result ↔ (one.now ≡ other.now) }
{
    is_same_else(one, other) && has_same_rect(&one.rect, &other.rect)
}

/// Whether two lists of facts are the same.
pub fn are_same_facts(one: &[Fact], other: &[Fact]) -> bool
    ensures { IsTrue result ↔ (one.now ≡ other.now) }
{
    let mut ones = one;
    let mut others = other;
    'facts: while let ([first, ones_behind @ ..], [second, others_behind @ ..]) = (ones, others) {
        if !is_same_fact(first, second) {
            return false;
        }
        ones = ones_behind;
        others = others_behind;
    }
    ones.is_empty() && others.is_empty()
}
