//! How far a budget leads along waypoints.

ghost use Rattle.std.specs.Prelude.{All, int_div, pos, ◌*ℤ◌, ◌*◌, ◌+ℤ◌, ◌-ℤ◌, ◌/◌, ◌<◌, ◌≡◌, ◌≤◌};
ghost use Rattle.{sim_base.specs.Places.IsPlaced, sim_base.specs.Turn.walked, sim_plans.specs.Sizes.IsCoordinate};

use crate::far::distance;
use sim_base::{Fixed, Point};

/// Walks along waypoints as far as the budget goes, in units of 1/65536 m. Answers where it comes to, and the waypoints
/// that are left.
pub fn walk<'w>(from: &Point, budget: u32, way: &'w [Point]) -> (Point, &'w [Point])
    requires from { IsPlaced from.now }
    requires way { All IsPlaced way.now }
    ensures at { result.0 ≡ (walked from.now budget way.now).at }
    ensures way { result.1.now ≡ (walked from.now budget way.now).way }
{
    let mut at = *from;
    let mut budget = budget;
    let mut rest = way;
    while let [next, more @ ..] = rest {
        let far = distance(&at, next);
        if far > budget {
            let stop = Point {
                x: part(at.x, next.x, budget, far),
                z: part(at.z, next.z, budget, far),
            };
            return (stop, rest);
        }
        at = *next;
        budget -= far;
        rest = more;
    }
    (at, rest)
}

// A number and its share of the difference to another, truncated towards zero.
#[tactic(auto, using(crate::proofs::Parts::part_up, crate::proofs::Parts::part_down))]
fn part(from: Fixed, to: Fixed, budget: u32, distance: u32) -> Fixed
    requires from { IsCoordinate from }
    requires to { IsCoordinate to }
    requires far { budget < distance }
    ensures { result ≡ from +ℤ int_div ((to -ℤ from) *ℤ pos budget) (pos distance) }
{
    let a = from.raw().unsigned_abs();
    let b = to.raw().unsigned_abs();
    if a <= b {
        return Fixed::from_raw((a + share(b - a, budget, distance)) as i32);
    }
    Fixed::from_raw((a - share(a - b, budget, distance)) as i32)
}

// The share of a gap that a budget makes of a distance, rounded down.
#[tactic(auto, using(crate::proofs::Parts::share_small))]
fn share(gap: u32, budget: u32, distance: u32) -> u32
    requires { budget < distance }
    ensures value { result ≡ gap * budget / distance }
    ensures small { result ≤ gap }
{
    (u64::from(gap) * u64::from(budget) / u64::from(distance)) as u32
}
