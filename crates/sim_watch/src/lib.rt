//! The system that knows who aims at whom.
//!
//! It promises that it keeps the target of each entity that has one, as `System` says, and that those who aim at an entity
//! are a filter over these. Beside them it keeps a list of ids per target, which it lends. It stands on the groups of the lists
//! of facts.
//!
//! - `watch`: the system.
//! - `aimers`: the target of each entity, by id; `aimer` is one of them.
//! - `aims`: who aims at whom, by target.
#![tactic(auto)]

mod aimer;
mod aimers;
mod aims;
mod watch;

pub use watch::Watch;
