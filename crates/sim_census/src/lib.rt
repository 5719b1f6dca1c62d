//! The system that knows who owns what.
//!
//! It promises that it keeps the owner of each entity, as `System` says, and beside these the number of each owner's
//! entities, which each note changes. So to be asked costs nothing, however many there are. It stands on the lists of facts.
//!
//! - `census`: the system.
//! - `owners`: the owner of each entity, by id; `owned` is one of them.
//! - `counts`: the numbers, and how they change.
#![tactic(auto)]

mod census;
mod counts;
mod owned;
mod owners;

pub use census::Census;
