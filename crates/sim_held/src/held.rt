//! What is held, as one kind of thing.

use crate::{HeldClient, HeldMatch, HeldServer};

/// A client, a server or a match. It holds no system, no planner and no board.
#[derive(Drop)]
pub enum Held {
    Client(HeldClient),
    Server(HeldServer),
    Match(HeldMatch),
}
