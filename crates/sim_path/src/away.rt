//! The directions that lead straight away from a goal: a step in one of them adds what it costs to the octile distance.

ghost use Rattle.std.specs.Prelude.{◌<◌, ◌≡◌};
ghost use Rattle.sim_path.specs.Nearest.{AreAway, leads_away as leads_away_from};

use sim_base::Cell;

// Whether a direction leads straight away from the goal.
fn leads_away(at: Cell, goal: Cell, which: u8) -> bool
    requires { which < 8 }
    ensures { result ≡ leads_away_from at goal which }
{
    let x = at.x.abs_diff(goal.x);
    let z = at.z.abs_diff(goal.z);
    match which {
        0 => goal.x <= at.x && z <= x,
        1 => goal.z <= at.z && x <= z,
        2 => at.x <= goal.x && z <= x,
        3 => at.z <= goal.z && x <= z,
        4 => goal.x <= at.x && goal.z <= at.z,
        5 => at.x <= goal.x && goal.z <= at.z,
        6 => at.x <= goal.x && at.z <= goal.z,
        _ => goal.x <= at.x && at.z <= goal.z,
    }
}

/// The directions that lead straight away from the goal, as a bit for each.
pub fn away_from(at: Cell, goal: Cell) -> u8
    ensures { AreAway at goal result }
{
    let mut away = 0u8;
    for which in 0..8u8 {
        if leads_away(at, goal, which) {
            away |= 1 << which;
        }
    }
    away
}
