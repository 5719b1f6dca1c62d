//! The system that knows who stands where.
//!
//! It promises that it keeps the place, owner, health and vision of each entity that has health or can attack, as `System`
//! says, and that those within a radius, and those whom an entity sees, are filters over these. Beside them it keeps who
//! stands in which bucket of the ground, which it lends, and whom each entity sees, which it lends too. A note changes the lists
//! of those whom it concerns, and none is drawn anew. A range that looks instead keeps no such lists: it is told of a move at
//! less cost, and asked at more. It stands on the lists of facts.
//!
//! - `range`: the system.
//! - `bucket`: who stands in one bucket.
//! - `buckets`: who stands in which bucket of 16 by 16 cells.
//! - `crowd`: the land, the facts and the buckets, as they are lent together.
//! - `within`: who is near a point, by the buckets about it.
//! - `seen`: whom an entity sees, looked for.
//! - `ready`: a note, made ready and taken up.
//! - `plan`: what a note changes of what is seen.
//! - `area`: which buckets are looked into for it.
//! - `span`: the rows and columns of these.
//! - `inner`: which of these are passed over again.
//! - `visions`: how far anybody sees.
//! - `watchers`: who sees whom.
//! - `sight`: whom an entity sees, changed one by one.
//! - `sights`: whom all see.
#![tactic(auto)]

mod area;
mod bucket;
mod buckets;
mod crowd;
mod inner;
mod plan;
mod range;
mod ready;
mod seen;
mod sight;
mod sights;
mod span;
mod visions;
mod watchers;
mod within;

pub use range::Range;
