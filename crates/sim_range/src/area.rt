//! Which buckets come within reach of where an entity was and of where it is: those of a few rows and columns.

ghost use Rattle.sim_range.specs.{Buckets.bucket_at, Common.{IsPlaced, Point}, Sights.{AreApart, AreOnGround, IsBeside, IsIn, IsOut}};
ghost use Rattle.std.specs.Prelude.{IfSome, pos, unsigned_abs, ℕ, ℤ, ◌-ℤ◌, ◌/◌, ◌<ℤ◌, ◌≡◌, ◌≤ℤ◌, ◌≤◌};

use crate::span::{Area, Span};
use sim_base::{Fixed, Point};
use sim_system::Fact;

// The rows, or columns, that come within reach of two numbers.
fn span_of(from: Fixed, to: Fixed, reach: u32) -> Span
    requires from { (pos 0 ≤ℤ from) × (from <ℤ pos 16777216) }
    requires to { (pos 0 ≤ℤ to) × (to <ℤ pos 16777216) }
    ensures from { (other : ℤ) → pos 0 ≤ℤ other → other <ℤ pos 16777216 → unsigned_abs (other -ℤ from) ≤ reach → IsIn result (unsigned_abs other / 65536 / 16) }
    ensures to { (other : ℤ) → pos 0 ≤ℤ other → other <ℤ pos 16777216 → unsigned_abs (other -ℤ to) ≤ reach → IsIn result (unsigned_abs other / 65536 / 16) }
{
    let (from, to) = (from.raw().unsigned_abs(), to.raw().unsigned_abs());
    let low = from.min(to).saturating_sub(reach);
    let high = from.max(to).saturating_add(reach).min(16_777_215);
    Span {
        first: (low / 1_048_576) as usize,
        end: (high / 1_048_576) as usize + 1,
    }
}

// The area within reach of two points.
fn between(from: &Point, to: &Point, reach: u32) -> Area
    requires from { IsPlaced from.now }
    requires to { IsPlaced to.now }
    ensures from { (k : ℕ) (p : Point) → IsBeside k result → IsPlaced p → bucket_at p ≡ k → AreApart reach p from.now }
    ensures to { (k : ℕ) (p : Point) → IsBeside k result → IsPlaced p → bucket_at p ≡ k → AreApart reach p to.now }
{
    Area {
        rows: span_of(from.z, to.z, reach),
        columns: span_of(from.x, to.x, reach),
    }
}

/// The area within reach of where an entity was kept, if it was, and of where it is kept, if it is.
pub fn area_of(before: &Option<Fact>, after: &Option<Fact>, reach: u32) -> Area
    requires { AreOnGround before.now after.now }
    ensures before { (k : ℕ) → IsBeside k result → IsOut k reach before.now }
    ensures after { (k : ℕ) → IsBeside k result → IsOut k reach after.now }
{
    match (before, after) {
        (Some(from), Some(to)) => between(&from.at, &to.at, reach),
        (Some(from), None) => between(&from.at, &from.at, reach),
        (None, Some(to)) => between(&to.at, &to.at, reach),
        (None, None) => Area {
            rows: Span { first: 0, end: 0 },
            columns: Span { first: 0, end: 0 },
        },
    }
}
