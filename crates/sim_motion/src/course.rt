//! Where a row goes.

ghost use Rattle.{sim_base.specs.Places.IsPlaced, std.specs.Prelude.All};

use sim_base::Point;

/// A goal, the waypoints towards it, and whether they lead all the way.
#[derive(Drop)]
pub struct Course<'a> {
    pub goal: &'a Point,
    pub way: &'a [Point],
    pub whole: bool,
    ghost placed: { All IsPlaced way.now },
}
