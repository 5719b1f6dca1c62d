//! The systems of a match, as a board and the phases of a turn know them: by what they mean, and by nothing of how they are
//! built.
//!
//! It promises nothing by itself: it has the words in which systems are told, asked and answered, and the trait that each
//! system meets. `specs/` says what each kind keeps of a state, what a note makes of that, when a note fits, and what is
//! answered. Each of the four systems stands in a crate of its own, above this one; so do the laws of these words.
//!
//! - `fact`: what a system is told of an entity.
//! - `note`: what has become of an entity.
//! - `ask`: the questions, and their answers.
//! - `kind`: the four kinds of system.
//! - `system`: what each system can do.
//! - `boxed`: the calls of a system in a box, with the contracts of `system`.
//! - `rig`: the four systems of a match.
#![tactic(auto)]

mod ask;
pub mod boxed;
mod fact;
mod kind;
mod note;
mod rig;
mod system;

pub use ask::{Answer, Ask};
pub use fact::{Fact, Facts};
pub use kind::Kind;
pub use note::Note;
pub use rig::Rig;
use sim_base::Points;
pub use system::System;

/// The points of a way in the order in which they are reached, and whether they lead to its end.
#[derive(Debug, Drop)]
pub struct Way {
    pub points: Points,
    pub whole: bool,
}
