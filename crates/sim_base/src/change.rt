//! The small steps of which a turn is made.

use crate::{Aim, Fixed, Items, Motion, Point};

/// One change of a state: a part of one entity is set, an entity leaves or is made, the random word is set, or the turn
/// is counted.
#[derive(Debug, Drop)]
pub enum Change {
    Move { id: u32, at: Point },
    Motion { id: u32, motion: Motion },
    Attack { id: u32, aim: Aim },
    Health { id: u32, health: Fixed },
    Owner { id: u32, owner: u8 },
    Remove { id: u32 },
    Create { template: u16, at: Point, owner: u8 },
    Word { word: u64 },
    Tick,
}

/// Changes, in the order in which they are made.
pub type Changes = Items<Change>;
