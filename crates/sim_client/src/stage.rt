//! What a client keeps beside its board.

use crate::known::Known;

/// What a client that is on keeps beside its state: the commands that it knows, the turns that it knows to be released, the
/// turns for which it is done with its commands, and how many it has given since.
#[derive(Drop)]
pub struct Seat {
    pub known: Known,
    pub released: u32,
    pub done: u32,
    pub orders: u8,
}

/// A client is off, waits for a state, or is on.
#[derive(Drop)]
pub enum Stage {
    Off,
    Joining,
    On { seat: Seat },
}
