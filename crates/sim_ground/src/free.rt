//! Whether a rectangle is free. It is compared with the other rectangles, and no cell is gone through.

ghost use Rattle.std.specs.{List.list_any, Prelude.not, Prelude.◌&&◌, Prelude.◌≡◌};
ghost use Rattle.{sim_base.specs.Places.is_rect_inside, sim_base.specs.Rows.size_of, sim_ground.specs.Cells.meet, sim_ground.specs.Cells.overlap as overlap_of};
ghost use Rattle.{sim_ground.specs.Cells.overlaps_any, sim_system.specs.Meanings.is_free_among};

use sim_base::{Land, Rect};
use sim_system::Fact;

// Whether a rectangle lies on the land.
fn is_inside(land: &Land, rect: &Rect) -> bool
    ensures { result ≡ is_rect_inside (size_of land.now) rect.now }
{
    0 <= rect.x0
        && rect.x1 < i32::from(land.width)
        && 0 <= rect.z0
        && rect.z1 < i32::from(land.depth)
}

// Whether two rectangles have cells in one column.
fn share_column(one: &Rect, other: &Rect) -> bool
    ensures { result ≡ meet one.now.x0 one.now.x1 other.now.x0 other.now.x1 }
{
    (one.x0 <= one.x1 && other.x0 <= other.x1) && (one.x0 <= other.x1 && other.x0 <= one.x1)
}

// Whether two rectangles have cells in one row.
fn share_row(one: &Rect, other: &Rect) -> bool
    ensures { result ≡ meet one.now.z0 one.now.z1 other.now.z0 other.now.z1 }
{
    (one.z0 <= one.z1 && other.z0 <= other.z1) && (one.z0 <= other.z1 && other.z0 <= one.z1)
}

// Whether two rectangles have a cell in common.
fn overlap(one: &Rect, other: &Rect) -> bool
    ensures { result ≡ overlap_of one.now other.now }
{
    share_column(one, other) && share_row(one, other)
}

// Whether a rectangle has a cell in common with that of an entity.
fn overlaps(rect: &Rect, other: &Option<Rect>) -> bool
    ensures { result ≡ overlaps_any rect.now other.now }
{
    match other {
        Some(other) => overlap(rect, other),
        None => false,
    }
}

// Whether a rectangle has a cell in common with one of the closed ones.
fn overlaps_closed(closed: &[Rect], rect: &Rect) -> bool
    ensures { result ≡ list_any (overlap_of rect.now) closed.now }
{
    for other in closed {
        if overlap(rect, other) {
            return true;
        }
    }
    false
}

// Whether a rectangle has a cell in common with one of the obstructions.
fn overlaps_built(facts: &[Fact], rect: &Rect) -> bool
    ensures { result ≡ list_any (λ fact. overlaps_any rect.now fact.rect) facts.now }
{
    for fact in facts {
        if overlaps(rect, &fact.rect) {
            return true;
        }
    }
    false
}

// Whether a rectangle has no cell in common with a closed one, nor with an obstruction.
fn is_apart(land: &Land, facts: &[Fact], rect: &Rect) -> bool
    ensures { result ≡ (not (list_any (overlap_of rect.now) land.now.closed) && not (list_any (λ fact. overlaps_any rect.now fact.rect) facts.now)) }
{
    !overlaps_closed(land.closed.as_slice(), rect) && !overlaps_built(facts, rect)
}

/// Whether a rectangle lies on the land, and all its cells are open.
pub fn is_free(land: &Land, facts: &[Fact], rect: &Rect) -> bool
    ensures { result ≡ is_free_among land.now facts.now rect.now }
{
    is_inside(land, rect) && is_apart(land, facts, rect)
}
