//! What a client keeps, and what a call of it came to.

use sim_base::State;
use sim_client::Seat;

/// A client is off, waits for a state, or is on, with its state and what it keeps beside.
#[derive(Drop)]
pub enum Stage {
    Off,
    Joining,
    On { state: State, seat: Seat },
}

/// The bytes stand for nothing that the client could take; or nothing happened; or something did.
#[derive(Clone, Copy, Debug, PartialEq, Eq)]
pub enum Went {
    Refused,
    Idle,
    Done,
}
