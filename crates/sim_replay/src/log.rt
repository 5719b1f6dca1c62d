//! A log: what was commanded in each turn, and the digest after it.

use sim_base::{Items, PlayerCommand};

/// The commands of one turn, in order.
pub type Orders = Items<PlayerCommand>;

/// The commands of the turns from 1 on.
pub type Turns = Items<Orders>;

/// The digests after the turns from 0 on.
pub type Digests = Items<[u8; 16]>;

/// A log of n turns: a list of commands for each, and n + 1 digests, the first of which is of the state at the start.
#[derive(Debug, Drop)]
pub struct Log {
    pub turns: Turns,
    pub digests: Digests,
}
