//! Runs of the program in memory over rigs of real systems: what the tests of whole runs share. It promises nothing by
//! itself, since what a run answers is promised by the top call.
//!
//! - `games`: matches.
//! - `rigs`: the macros that make a rig.
//! - `printed`: files, words and what is printed.
#![tactic(auto)]

pub mod games;
mod printed;
mod rigs;

pub use printed::{Case, Printed, first_unmet, print, run_words, shelf_of, words_of};
pub use sim_edge::{add_rig, planned, run_with};
