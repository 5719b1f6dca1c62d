//! A schedule: what arrives at a server, in order, and for which match.

use sim_base::Items;
use sim_wire::{Bytes, Up};

/// What comes from a client: what it says, the end of its connection, or bytes as they came, at most as many as a frame has.
/// Raw bytes are the message of which they are the frame, or end the connection where they are no frame.
#[derive(Debug, Drop)]
pub enum Said {
    Heard { up: Up },
    Cut,
    Raw { bytes: Bytes },
}

/// What arrives, and from which client.
#[derive(Debug, Drop)]
pub struct Arrival {
    pub from: u8,
    pub said: Said,
}

/// What arrives, in order.
pub type Arrivals = Items<Arrival>;

/// The arrivals at the server of a match of so many clients, of which those up to the active number are in it from the
/// start, with its delay and its turns.
#[derive(Debug, Drop)]
pub struct Schedule {
    pub clients: u8,
    pub active: u8,
    pub delay: u8,
    pub turns: u32,
    pub arrivals: Arrivals,
}
