//! Where a row comes to, and how it goes on.

ghost use Rattle.std.specs.Prelude.{[], IfOk, IsOk, IsTrue, Some, true, ◌≡◌};
ghost use Rattle.sim_base.specs.{Commands.field_of, Limits.IsKnownRow, Places.IsPlaced, Places.is_inside, Rows.arms_of as arms_by, Rows.row_of, Rows.size_of};
ghost use Rattle.sim_base.specs.{Rows.target_of as target_by, Turn.after_walk as after_walk_by, Turn.chasing, Turn.moved_by, Turn.walked, Ways.way_of};
ghost use Rattle.sim_motion.specs.Moves.{along_course, along_way, going, MakesNoWay, NeedsNoMemory, row_moved};
ghost use Rattle.{sim_base.specs.declared.state.Motion.TheVariants.Still, sim_plans.specs.SceneWords.Stands};

use crate::chase::{Chase, chase_of};
use crate::course::Course;
use crate::walk::walk;
use sim_base::{Global, Items, Motion, OutOfMemory, Point, Row};
use sim_plans::{RowIndex, Scene};
use sim_system::{Answer, Ask, System};

/// Where a row has come to, and how it goes on, if not as it went.
#[derive(Drop)]
pub struct Moved {
    pub at: Point,
    pub motion: Option<Motion>,
}

/// A row that stands on the ground, and how far it may go, in units of 1/65536 m.
#[derive(Drop)]
pub struct Walker<'a> {
    pub row: &'a Row,
    pub budget: u32,
    ghost placed: { IsPlaced row.now.at },
}

impl Walker<'_> {
    /// Where the row comes to with a motion that is its own, and how it goes on.
    pub fn moved(
        &self,
        alloc: Global,
        index: &RowIndex,
        scene: &Scene<'_>,
        motion: &Motion,
    ) -> Result<Moved, OutOfMemory>
        requires stands { Stands scene.now ⟦<dyn System as System>⟧ }
        requires row { IsKnownRow 0 scene.now.setup.now scene.now.state.now.rows self.now.row.now }
        requires motion { self.now.row.now.motion ≡ Some motion.now }
        ensures value { let row = self.now.row.now in IfOk result (λ new. row_moved row new
            ≡ moved_by scene.now.setup.now scene.now.state.now row self.now.budget (chasing row motion.now (row_of scene.now.state.now (target_by row))
            (arms_by scene.now.setup.now row))) }
        ensures light { let row = self.now.row.now in NeedsNoMemory row.at self.now.budget (chasing row motion.now (row_of scene.now.state.now (target_by row))
            (arms_by scene.now.setup.now row)) → IsOk result }
    {
        match chase_of(index, scene.setup, scene.state, self.row, motion) {
            Chase::Stay => Ok(self.stay()),
            Chase::Go(goal) => self.go(alloc, scene, &goal),
            Chase::Keep => match motion {
                Motion::Still => Ok(self.stay()),
                Motion::Going { goal, way, whole } => {
                    let way = way.as_slice();
                    if way.is_empty() && !*whole {
                        return self.go(alloc, scene, goal);
                    }
                    let whole = *whole;
                    self.go_on(alloc, &Course { goal, way, whole })
                }
            },
        }
    }

    fn stay(&self) -> Moved
        ensures { row_moved self.now.row.now result ≡ record self.now.row.now { motion = Some Still } }
    {
        Moved {
            at: self.row.at,
            motion: Some(Motion::Still),
        }
    }

    // The row asks a way, and goes along it; if it leads nowhere, the row stands still.
    fn go(&self, alloc: Global, scene: &Scene<'_>, goal: &Point) -> Result<Moved, OutOfMemory>
        requires stands { Stands scene.now ⟦<dyn System as System>⟧ }
        requires at { IsTrue (is_inside (size_of scene.now.setup.now.land) self.now.row.now.at) }
        requires goal { IsTrue (is_inside (size_of scene.now.setup.now.land) goal.now) }
        ensures { IfOk result (λ new. row_moved self.now.row.now new ≡ along_way self.now.row.now self.now.budget goal.now
            (way_of (field_of scene.now.setup.now scene.now.state.now) self.now.row.now.at goal.now)) }
    {
        let asked = Ask::Way {
            start: self.row.at,
            goal: *goal,
        };
        let found = match scene.ask(&asked)? {
            Answer::Found { way } => way,
            _ => unreachable!(),
        };
        let way = found.points.as_slice();
        if way.is_empty() {
            return Ok(self.stay());
        }
        let whole = found.whole;
        self.along(alloc, &Course { goal, way, whole })
    }

    // The row goes along its own way. Where it reaches no waypoint it goes on as it went, which takes no memory.
    fn go_on(&self, alloc: Global, course: &Course<'_>) -> Result<Moved, OutOfMemory>
        requires { self.now.row.now.motion ≡ Some (going course.now) }
        ensures value { IfOk result (λ new. row_moved self.now.row.now new ≡ along_course self.now.row.now self.now.budget course.now) }
        ensures light { MakesNoWay course.now.whole course.now.way.now (walked self.now.row.now.at self.now.budget course.now.way.now).way → IsOk result }
    {
        let (at, left) = walk(&self.row.at, self.budget, course.way);
        if !left.is_empty() && left.len() == course.way.len() {
            return Ok(Moved { at, motion: None });
        }
        let motion = after_walk(alloc, course.goal, left, course.whole)?;
        Ok(Moved {
            at,
            motion: Some(motion),
        })
    }

    // The row goes along a way as far as its budget leads.
    fn along(&self, alloc: Global, course: &Course<'_>) -> Result<Moved, OutOfMemory>
        ensures { IfOk result (λ new. row_moved self.now.row.now new ≡ along_course self.now.row.now self.now.budget course.now) }
    {
        let (at, left) = walk(&self.row.at, self.budget, course.way);
        let motion = after_walk(alloc, course.goal, left, course.whole)?;
        Ok(Moved {
            at,
            motion: Some(motion),
        })
    }
}

// How a row goes on that has walked up to these waypoints.
fn after_walk(
    alloc: Global,
    goal: &Point,
    left: &[Point],
    whole: bool,
) -> Result<Motion, OutOfMemory>
    ensures value { IfOk result (λ motion. motion ≡ after_walk_by goal.now whole left.now) }
    ensures light { whole ≡ true → left.now ≡ [] → IsOk result }
{
    if whole && left.is_empty() {
        return Ok(Motion::Still);
    }
    Ok(Motion::Going {
        goal: *goal,
        way: Items::from_items(Vec::from_slice(alloc, left)?),
        whole,
    })
}
