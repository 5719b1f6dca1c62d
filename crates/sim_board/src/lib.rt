//! A board: the state of a match and the systems that are told of each change.
//!
//! It promises that its scene stands after every change that fits, that its state is that of the definition, and that no
//! change has a system built anew. It stands on what fits, on the laws of facts, and on the scene.
//!
//! - `board`: the calls of a board.
//! - `follow`: a board over every list of changes.
//! - `step`: one change, with its notes.
//! - `post`: the notes of a change, to the systems that keep it.
//! - `tell`: one note to all four systems.
//! - `change`: the state after a change.
//! - `edit`: a row is released, leaves or is made.
//! - `quiet`: aims by which rows keep their targets, of which no system is told.
//! - `near`: the place of a row, near that of the last one.
//! - `row`: a living row, and what systems are told of it.
//! - `build`: the systems are built from a state.
//! - `first`: the state in which a match begins.
#![tactic(auto)]

mod board;
mod build;
mod change;
mod edit;
mod first;
mod follow;
mod near;
mod post;
mod quiet;
mod row;
mod step;
mod tell;

pub use board::Board;
pub use follow::{adopt_and_apply, apply_all, start_and_apply};
