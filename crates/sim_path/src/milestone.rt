//! A milestone towards a far goal. Where a search comes to it, a way back from the goal may be found with no more search.

ghost use Rattle.std.specs.Prelude.{◌<◌};

use crate::question::Question;
use sim_base::Cell;
use sim_grid::octile;

// From which octile distance on a goal is far: a hundred straight steps.
const FAR: u32 = 1_000;

// How many steps there are to the first cell that is tried, and how many cells are.
const STEPS: u32 = 20;

const TRIED: u32 = 4;

// The coordinate after so many of all steps from one to another.
fn between(from: u16, to: u16, steps: u32, all: u32) -> u16
    requires { steps < 64 }
{
    let way = u32::from(from.abs_diff(to)) * steps / all.max(1);
    let way = way.min(u32::from(from.abs_diff(to))) as u16;
    if from < to { from + way } else { from - way }
}

/// An open cell on the straight line to a goal that is far and can be reached.
pub fn milestone(question: &Question<'_>) -> Option<Cell> {
    let (grid, from, to) = (question.grid, question.start, question.goal);
    if question.near != 0 || octile(from, to) < FAR {
        return None;
    }
    let all = u32::from(from.x.abs_diff(to.x).max(from.z.abs_diff(to.z)));
    for steps in STEPS..STEPS + TRIED {
        let cell = Cell {
            x: between(from.x, to.x, steps, all),
            z: between(from.z, to.z, steps, all),
        };
        if grid.has(cell) && grid.open(cell) {
            return Some(cell);
        }
    }
    None
}
