//! How points lie on the ground and to one another.

ghost use Rattle.std.specs.Prelude.{◌≡◌};
ghost use Rattle.sim_plans.specs.Common.{is_inside as is_inside_of, is_near as is_near_by, IsPlaced, IsRawFrom, same_point as same_point_by, size_of};

use sim_base::{Fixed, Land, Point, square};

/// Whether a point lies on the ground.
pub fn is_inside(land: &Land, at: &Point) -> bool
    ensures { result ≡ is_inside_of (size_of land.now) at.now }
{
    let x = i64::from(at.x.raw());
    let z = i64::from(at.z.raw());
    0 <= x && x < i64::from(land.width) * 65536 && 0 <= z && z < i64::from(land.depth) * 65536
}

/// Whether two points are at most a radius apart.
pub fn is_near(from: &Point, to: &Point, radius: Fixed) -> bool
    requires from { IsPlaced from.now }
    requires to { IsPlaced to.now }
    requires radius { IsRawFrom 0 16777216 radius }
    ensures { result ≡ is_near_by from.now to.now radius }
{
    let reach = u64::from(radius.raw().unsigned_abs());
    square(*from, *to) <= reach * reach
}

/// Whether two points are one.
pub fn same_point(p: &Point, q: &Point) -> bool
    ensures { result ≡ same_point_by p.now q.now }
{
    p.x.raw() == q.x.raw() && p.z.raw() == q.z.raw()
}
