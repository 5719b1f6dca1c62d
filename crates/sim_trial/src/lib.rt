//! The match of a trial, which anyone can make from three numbers, play, and compare by its digests.
//!
//! It promises the exact bytes of that match's file: its ground, its template, soldiers that stand where the random word
//! puts them, and their orders to walk to the middle. Want of memory is its one error. It stands on `sim_base`, for the
//! random word; what the file says as a match is for `sim_setup` to read.
//!
//! - `limits`: how many soldiers and turns a trial may have.
//! - `text`: the whole file.
//! - `soldiers`: its entities.
//! - `walks`: its commands.
//! - `comma`: what stands between two pieces of a list.
#![tactic(auto)]

mod comma;
mod limits;
mod soldiers;
mod text;
mod walks;

pub use limits::{MAX_SEED, MAX_TURNS, MAX_UNITS, is_trial};
pub use text::trial_text;
