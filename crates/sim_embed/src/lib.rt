//! The core over bytes: what a program asks of it in one call that keeps nothing.
//!
//! It promises of each call that the answer is that of the definitions for the match, the states and the commands that the bytes
//! stand for, and else the first cause for which there is none. Every call is total: any bytes may be handed in. It stands on
//! `sim_setup`, `sim_json` and `sim_codec`, which read the bytes, on `sim_turn` over the four systems, which plays the turn, and on
//! `sim_diff` and `sim_report` for looks at a state.
//!
//! - `refused`: why a call has no answer.
//! - `reading`: the match, the state and the commands that bytes stand for.
//! - `stored`: a state as its bytes and their digest, and its digest with its turn.
//! - `plain`: the numbers of a match, and the rows of a state as records of numbers.
//! - `planning`: the one planner of all commands, as it is stored for each kind.
//! - `playing`: the first state, and a turn.
//! - `looking`: the digest of a state, its text, and where two differ.
//! - `room`: bytes that are put into a caller's room, whole or not at all.
#![tactic(auto)]

mod looking;
mod plain;
mod planning;
mod playing;
mod reading;
mod refused;
mod room;
mod stored;

pub use looking::{compare, digest, part_number, show, text_of};
pub use plain::{Entity, Facts, about, entities, entities_of};
pub use playing::{first, turn};
pub use reading::{commands_of, match_of, state_of};
pub use refused::Refused;
pub use room::put;
pub use stored::{Stamp, Stored};
