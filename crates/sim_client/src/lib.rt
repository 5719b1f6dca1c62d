//! The client of a session: what it knows of the match, and what it plays on a board.
//!
//! It promises that each step of a client, and each message that it hears, makes of it just what the definition of a
//! session says, with a state in place of a past and bytes in place of carried pasts; that the systems of one that is on
//! stand for its state, and those of any other are cleared; and that only its start and a state that it loads build them,
//! once at most. It stands on `sim_turn`, which plays a turn on a board, on the codec, and on the definition in
//! `sim_plain_session`.
//!
//! - `did`: what a step comes to.
//! - `digests`: the digests of the states that were digested last.
//! - `known`: the commands of the turns to come.
//! - `stage`: what a client keeps beside its board.
//! - `bending`, `playing`: what one that is on does with its board, and what it hears. The calls of `playing` are public, for one who keeps
//!   a seat and a state, and makes a board to play on.
//! - `client`: the client.
//! - `laws`: theorems about the definitions, each the contract of a function that does nothing.
#![tactic(auto)]

mod bending;
mod client;
mod did;
mod digests;
mod known;
mod laws;
mod playing;
mod stage;

pub use client::Client;
pub use did::{Did, Played, Ups};
pub use digests::Digests;
pub use known::Known;
pub use laws::lives_follow_phases;
pub use playing::{begin, heed, order, play};
pub use stage::Seat;
