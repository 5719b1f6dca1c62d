//! What a planner of commands needs of the systems.

use sim_base::Cell;

/// How many entities the player has; whether the command places something where it may stand; and the cell where a
/// building that trains would put a new entity.
#[derive(Clone, Copy, Debug)]
pub struct Help {
    pub count: u32,
    pub free: bool,
    pub spot: Option<Cell>,
}
