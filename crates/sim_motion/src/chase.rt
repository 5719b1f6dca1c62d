//! What a row that can move does by its target.

ghost use Rattle.std.specs.Prelude.{◌≡◌};
ghost use Rattle.sim_base.specs.{Limits.IsKnownRow, Limits.IsLooselyValid, Limits.IsSetup, Rows.arms_of as arms_by, Rows.row_of, Rows.target_of as target_by};
ghost use Rattle.{sim_base.specs.Turn.chasing, sim_motion.specs.Moves.LeadsInside, sim_motion.specs.Moves.chased};

use sim_base::{Motion, Point, Row, Setup, State};
use sim_plans::{RowIndex, arms_of, is_near, same_point, target_of};

/// Whether a row that can move stands still, goes on as it goes, or goes to a point.
#[derive(Drop)]
pub enum Chase {
    Stay,
    Keep,
    Go(Point),
}

/// What the row does: it stands still where its target is in range, and else goes after it.
pub fn chase_of(index: &RowIndex, setup: &Setup, state: &State, row: &Row, motion: &Motion) -> Chase
    requires limits { IsSetup setup.now }
    requires valid { IsLooselyValid setup.now state.now }
    requires row { IsKnownRow 0 setup.now state.now.rows row.now }
    ensures inside { LeadsInside setup.now result }
    ensures value { chased motion.now result ≡ chasing row.now motion.now (row_of state.now (target_by row.now)) (arms_by setup.now row.now) }
{
    let Some(arms) = arms_of(setup, row) else {
        return Chase::Keep;
    };
    let Some(target) = index.find_row(state, target_of(row)) else {
        return Chase::Keep;
    };
    if is_near(&target.at, &row.at, arms.range) {
        return Chase::Stay;
    }
    match motion {
        Motion::Going { goal, .. } if same_point(goal, &target.at) => Chase::Keep,
        _ => Chase::Go(target.at),
    }
}
