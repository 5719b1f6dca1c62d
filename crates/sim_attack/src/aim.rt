//! The phase in which fighters choose their targets.
//!
//! All is found from the state as it was: that targets are let go first changes no place, no owner, no health, and not who
//! holds its place. So the nearest enemy that one row finds is kept for others of its owner that stand where it stands. A row
//! that holds its place takes it where it is within range; if it is not, no other is.

ghost use Rattle.sim_attack.specs.Finds.{AreFound, better_of, Knows, MayLook, nearest_from, nearest_of};
ghost use Rattle.sim_base.specs.{Limits.{IsKnownRow, IsSetup}, Places.IsPlaced, Rows.{arms_of as arms_by, row_of, target_of as target_by}, Turn.aimed};
ghost use Rattle.sim_base.specs.Turn.{is_idle as is_idle_by, lets_go as lets_go_by, may_take as may_take_by, reaches as reaches_by, square_to as square_to_by};
ghost use Rattle.sim_plans.specs.{Plans.{aim_changes_of, aim_plan, IsPlanOf, next_target}, SceneWords.Stands};
ghost use Rattle.std.specs.{Prelude.{IfOk, OnOk, Some, ◌++◌, ◌≡◌}, Result.ForOk};

use crate::battle::Battle;
use crate::finds::Finds;
use sim_base::{Arms, Changes, Global, Items, OutOfMemory, Point, Row, Setup, square};
use sim_plans::{
    RowIndex, Scene, arms_of, is_enemy_of, is_going, is_holding, is_near, push_target, push_turn,
    target_of,
};
use sim_system::{Answer, Ask, System};

/// The changes by which fighters choose their targets. They fit in order, and give the phase.
pub fn aim_changes(alloc: Global, scene: &Scene<'_>) -> Result<Changes, OutOfMemory>
    requires { Stands scene.now ⟦<dyn System as System>⟧ }
    ensures { ForOk result (λ changes. IsPlanOf scene.now.setup.now scene.now.state.now changes (aimed scene.now.setup.now scene.now.state.now)) }
{
    listed_aims(alloc, scene)
}

// The changes of all rows, row by row.
fn listed_aims(alloc: Global, scene: &Scene<'_>) -> Result<Changes, OutOfMemory>
    requires { Stands scene.now ⟦<dyn System as System>⟧ }
    ensures { IfOk result (λ changes. changes ≡ aim_plan scene.now.setup.now scene.now.state.now) }
{
    let rows = scene.state.rows.as_slice();
    let mut changes = Items::from_items(Vec::with_capacity(alloc, rows.len())?);
    let mut finds = Finds::new(alloc);
    let index = RowIndex::of(alloc, rows)?;
    for row in rows {
        push_aim(&mut changes, &mut finds, &index, scene, row)?;
    }
    Ok(changes)
}

// A row that lets go of its target stands still and looks for another one, and an idle row looks for one.
fn push_aim(
    changes: &mut Changes,
    finds: &mut Finds,
    index: &RowIndex,
    scene: &Scene<'_>,
    row: &Row,
) -> Result<(), OutOfMemory>
    requires can { MayLook scene.now row.now finds.old.kept.items ⟦<dyn System as System>⟧ }
    ensures changes { OnOk result (changes.new ≡ changes.old ++ aim_changes_of scene.now.setup.now scene.now.state.now row.now) }
    ensures finds { AreFound scene.now.setup.now scene.now.state.now finds.new.kept.items }
{
    let battle = Battle {
        setup: scene.setup,
        state: scene.state,
        index,
    };
    if battle.lets_go(row) {
        let target = next_target_of(finds, index, scene, row)?;
        return push_turn(changes, target, row);
    }
    if is_idle(row) {
        let target = next_target_of(finds, index, scene, row)?;
        return push_target(changes, target, row);
    }
    Ok(())
}

// The nearest enemy that the row sees, or 0; where it holds its place, only one within its range.
fn next_target_of(
    finds: &mut Finds,
    index: &RowIndex,
    scene: &Scene<'_>,
    row: &Row,
) -> Result<u32, OutOfMemory>
    requires can { MayLook scene.now row.now finds.old.kept.items ⟦<dyn System as System>⟧ }
    ensures target { IfOk result (λ target. target ≡ next_target scene.now.setup.now scene.now.state.now row.now (arms_by scene.now.setup.now row.now)) }
    ensures finds { AreFound scene.now.setup.now scene.now.state.now finds.new.kept.items }
{
    let Some(arms) = arms_of(scene.setup, row) else {
        return Ok(0);
    };
    let target = nearest_seen(finds, index, scene, row, &arms)?;
    if may_take(index, scene, row, &arms, target) {
        Ok(target)
    } else {
        Ok(0)
    }
}

// The nearest enemy that the row sees, or 0. It is looked for where no other row has found it.
fn nearest_seen(
    finds: &mut Finds,
    index: &RowIndex,
    scene: &Scene<'_>,
    row: &Row,
    arms: &Arms,
) -> Result<u32, OutOfMemory>
    requires can { MayLook scene.now row.now finds.old.kept.items ⟦<dyn System as System>⟧ }
    requires arms { arms_by scene.now.setup.now row.now ≡ Some arms.now }
    ensures target { IfOk result (λ target. target ≡ nearest_from scene.now.setup.now scene.now.state.now row.now.owner row.now.at arms.now.vision) }
    ensures finds { AreFound scene.now.setup.now scene.now.state.now finds.new.kept.items }
{
    if let Some(target) = finds.target_for(row, arms.vision) {
        return Ok(target);
    }
    let ids = match scene.ask(&Ask::Seen { id: row.id })? {
        Answer::Many { ids } => ids,
        _ => unreachable!(),
    };
    let battle = Battle {
        setup: scene.setup,
        state: scene.state,
        index,
    };
    let target = battle.nearest(row, ids.as_slice());
    finds.keep(row, arms.vision, target)?;
    Ok(target)
}

// Whether the row may take this target: any, and where it holds its place one within its range alone.
fn may_take(index: &RowIndex, scene: &Scene<'_>, row: &Row, arms: &Arms, id: u32) -> bool
    requires stands { Stands scene.now ⟦<dyn System as System>⟧ }
    requires row { IsKnownRow 0 scene.now.setup.now scene.now.state.now.rows row.now }
    requires arms { arms_by scene.now.setup.now row.now ≡ Some arms.now }
    ensures { result ≡ may_take_by scene.now.state.now row.now arms.now id }
{
    if !is_holding(row) {
        return true;
    }
    match index.find_row(scene.state, id) {
        Some(other) => is_near(&other.at, &row.at, arms.range),
        None => true,
    }
}

impl Battle<'_> {
    // Whether the row lets go of its target: one that is no enemy of its owner, or that it does not reach from the place that it
    // holds.
    fn lets_go(&self, row: &Row) -> bool
        requires { Knows self.now row.now }
        ensures { result ≡ lets_go_by self.now.setup.now row.now (row_of self.now.state.now (target_by row.now)) }
    {
        match self.index.find_row(self.state, target_of(row)) {
            Some(target) => {
                !is_enemy_of(self.setup, row.owner, target.owner)
                    || is_holding(row) && !reaches(self.setup, row, &target.at)
            }
            None => false,
        }
    }

    // The nearest of these rows, of several the one with the least id, or 0.
    fn nearest(&self, row: &Row, ids: &[u32]) -> u32
        requires { Knows self.now row.now }
        ensures { result ≡ nearest_of self.now.state.now row.now ids.now }
    {
        let mut best = None;
        for id in ids {
            let far = self.square_to(row, *id);
            best = Some(better(best, far, *id));
        }
        match best {
            Some(seen) => seen.id,
            None => 0,
        }
    }

    // The square of the distance to the row with this id, 0 where it is not there.
    fn square_to(&self, row: &Row, id: u32) -> u64
        requires { Knows self.now row.now }
        ensures { result ≡ square_to_by self.now.state.now row.now id }
    {
        match self.index.find_row(self.state, id) {
            Some(other) => square(other.at, row.at),
            None => 0,
        }
    }
}

// One that is seen, and the square of its distance.
#[derive(Clone, Copy, Debug)]
struct Candidate {
    far: u64,
    id: u32,
}

// The nearer of the best so far and another one.
fn better(best: Option<Candidate>, far: u64, id: u32) -> Candidate
    ensures { result ≡ better_of best far id }
{
    match best {
        Some(seen) if (seen.far, seen.id) <= (far, id) => seen,
        _ => Candidate { far, id },
    }
}

// Whether a point is within the range of the row.
fn reaches(setup: &Setup, row: &Row, at: &Point) -> bool
    requires limits { IsSetup setup.now }
    requires row { IsPlaced row.now.at }
    requires at { IsPlaced at.now }
    ensures { result ≡ reaches_by row.now (arms_by setup.now row.now) at.now }
{
    match arms_of(setup, row) {
        Some(arms) => is_near(at, &row.at, arms.range),
        None => false,
    }
}

// Whether the row is a fighter without a target that is not on its way.
fn is_idle(row: &Row) -> bool
    ensures { result ≡ is_idle_by row.now }
{
    match row.attack {
        Some(aim) => aim.target == 0 && !is_going(row),
        None => false,
    }
}
