//! Which buckets lie so near to both ends of a move that it changes nothing for those who stand in them: all of these see the
//! entity before and after, as far as they see anybody.

ghost use Rattle.std.specs.Prelude.{IfSome, IsTrue, pos, unsigned_abs, ℤ, ◌-ℤ◌, ◌/◌, ◌<ℤ◌, ◌<◌, ◌↔◌, ◌≡◌, ◌≤ℤ◌, ◌≤◌};
ghost use Rattle.sim_range.specs.{Common.IsPlaced, Sights.AreAbout, Sights.HasOnlyMoved, Sights.IsClose, Sights.IsInner};

use sim_base::{Fixed, Point, square};
use sim_system::Fact;

// The further end of 16 rows, or columns, of cells from a number.
fn far_end(part: usize, from: Fixed) -> Fixed
    requires part { part < 16 }
    requires from { (pos 0 ≤ℤ from) × (from <ℤ pos 16777216) }
    ensures low { pos 0 ≤ℤ result }
    ensures high { result <ℤ pos 16777216 }
    ensures far { (other : ℤ) → pos 0 ≤ℤ other → unsigned_abs other / 65536 / 16 ≡ part → unsigned_abs (other -ℤ from) ≤ unsigned_abs (result -ℤ from) }
{
    let first = part as i32 * 1_048_576;
    let last = first + 1_048_575;
    if from.raw() - first < last - from.raw() {
        Fixed::from_raw(last)
    } else {
        Fixed::from_raw(first)
    }
}

// Whether all points of a bucket are at most so far from a point.
fn is_close(number: usize, at: &Point, near: u32) -> bool
    requires number { number < 256 }
    requires at { IsPlaced at.now }
    ensures { IsTrue result → IsClose number near at.now }
{
    let corner = Point {
        x: far_end(number % 16, at.x),
        z: far_end(number / 16, at.z),
    };
    let near = u64::from(near);
    square(corner, *at) <= near * near
}

fn have_same_vision(left: Option<Fixed>, right: Option<Fixed>) -> bool
    ensures { IsTrue result ↔ (left ≡ right) }
{
    left == right
}

// Whether two facts of an entity say the same but for its place, as far as it matters to those who see.
fn has_only_moved(from: &Fact, to: &Fact) -> bool
    ensures { IsTrue result → HasOnlyMoved from.now to.now }
{
    from.id == to.id
        && from.owner == to.owner
        && from.health == to.health
        && have_same_vision(from.vision, to.vision)
}

/// Whether an entity has only moved, and all points of a bucket are at most so far from where it was and from where it is.
pub fn is_inner(number: usize, before: &Option<Fact>, after: &Option<Fact>, near: u32) -> bool
    requires { AreAbout number before.now after.now }
    ensures { IsTrue result → IsInner number near before.now after.now }
{
    match (before, after) {
        (Some(from), Some(to)) => {
            has_only_moved(from, to)
                && is_close(number, &from.at, near)
                && is_close(number, &to.at, near)
        }
        _ => false,
    }
}
