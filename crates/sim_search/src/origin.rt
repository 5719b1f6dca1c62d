//! Where a search starts. It stands apart from the queue, whose contracts speak of it.

ghost use Rattle.std.specs.Prelude.{◌<◌, ◌≤◌};

use sim_base::Cell;

/// A cell, and how many cells the ground on which it lies has each way.
#[derive(Clone, Copy)]
pub struct Origin {
    pub width: u16,
    pub depth: u16,
    pub start: Cell,
    ghost narrow: { width ≤ 256 },
    ghost shallow: { depth ≤ 256 },
    ghost east: { start.x < width },
    ghost north: { start.z < depth },
}
