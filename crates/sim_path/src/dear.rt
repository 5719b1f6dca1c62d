//! Goals to which searches were dear. It tells when the distances of all cells to a goal are worth while, and nothing else.

use sim_base::{Cell, Global, OutOfMemory};

// How many goals are counted at once.
const GOALS: usize = 1024;

// After how many opened cells of searches to a goal its distances are reckoned, which opens all that a walk reaches.
const DEAR: usize = 8_000;

// How many cells the searches to a goal have opened.
#[derive(Clone, Copy)]
struct Asked {
    goal: Cell,
    opened: usize,
}

/// How many cells the searches to some goals have opened. Goals that fall on one place give way to one another.
#[derive(Drop)]
pub struct Dear {
    items: Vec<Asked>,
}

// Where a goal is counted.
fn place_of(goal: Cell) -> usize {
    (usize::from(goal.z) * 37 + usize::from(goal.x)) % GOALS
}

impl Dear {
    /// None yet.
    pub fn new(alloc: Global) -> Result<Dear, OutOfMemory> {
        let none = Asked {
            goal: Cell { x: 0, z: 0 },
            opened: 0,
        };
        Ok(Dear {
            items: vec![in alloc; none; GOALS]?,
        })
    }

    /// Counts what a search to a goal has opened, and answers whether the searches to it, more than one, were dear by now. If so, its
    /// count begins anew.
    pub fn add(&mut self, goal: Cell, opened: usize) -> bool {
        let place = place_of(goal);
        if place >= self.items.len() {
            return false;
        }
        let asked = self.items[place];
        let again = asked.goal == goal;
        let before = if again { asked.opened } else { 0 };
        let all = before.saturating_add(opened);
        let dear = again && DEAR <= all;
        self.items[place] = Asked {
            goal,
            opened: if dear { 0 } else { all },
        };
        dear
    }
}
