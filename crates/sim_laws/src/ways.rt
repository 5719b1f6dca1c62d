//! Laws of ways. The definition, by least costs of walks, has exactly one way for each question, and the plain slow
//! function answers that one. So what is shown of either holds of both.

ghost use Rattle.sim_laws.specs.WayLaws.{InsideIsOnGround, WayIsUnique, WayIsWayOf, WayOfByGround, WayOfIsShort, WayOfIsWay, WayOfStaysInside};

/// Two ways of one question are equal.
pub fn one_way()
    ensures { WayIsUnique }
{}

/// The function answers a way, from each cell of the ground.
pub fn way_of_is_a_way()
    ensures { WayOfIsWay }
{}

/// A way is what the function answers.
pub fn a_way_is_way_of()
    ensures { WayIsWayOf }
{}

/// A point that lies on the ground lies in one of its cells.
pub fn inside_is_on_ground()
    ensures { InsideIsOnGround }
{}

/// The points of a way lie on the ground.
pub fn way_of_stays_inside()
    ensures { WayOfStaysInside }
{}

/// A way has no more points than a state may keep.
pub fn way_of_is_short()
    ensures { WayOfIsShort }
{}

/// A way depends on the cells of the ground alone.
pub fn way_of_by_ground()
    ensures { WayOfByGround }
{}
