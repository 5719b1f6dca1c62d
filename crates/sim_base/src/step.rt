//! The steps of a session, and the events that it prints.

use crate::{Command, Fixed, Items};

/// One step of a session, by or at one client, from 1 to 8.
///
/// A client orders, plays a turn, joins, is cut off, or has an entity's health bent; or the first frame of its pipe is
/// heard, up by the server or down by the client.
#[derive(Debug, Drop)]
pub enum Step {
    Order {
        client: u8,
        command: Command,
    },
    Up {
        client: u8,
    },
    Down {
        client: u8,
    },
    Play {
        client: u8,
    },
    Join {
        client: u8,
    },
    Cut {
        client: u8,
    },
    Bend {
        client: u8,
        entity: u32,
        health: Fixed,
    },
}

/// The steps of a session, in order.
pub type Steps = Items<Step>;

/// What a session prints of a step.
#[derive(Clone, Copy, Debug, PartialEq, Eq)]
pub enum Event {
    Start {
        client: u8,
        digest: [u8; 16],
    },
    Order {
        client: u8,
        turn: u32,
    },
    Play {
        client: u8,
        turn: u32,
        digest: [u8; 16],
    },
    Join {
        client: u8,
    },
    Load {
        client: u8,
        turn: u32,
        digest: [u8; 16],
    },
    Refused {
        client: u8,
        code: u8,
    },
    Cut {
        client: u8,
    },
    Bend {
        client: u8,
        turn: u32,
        digest: [u8; 16],
    },
    Notice {
        turn: u32,
        client: u8,
    },
}

/// What a session prints, in order.
pub type Events = Items<Event>;
