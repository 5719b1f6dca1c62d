//! Where two states of a match differ, told by the least entity and part of which they have not the same bytes.
//!
//! It promises that the place is the least one over every entity and every part, the clock being the part of entity 1,
//! and that there is none exactly where all bytes, and so the spellings of the two states, are the same. It takes no
//! memory. It stands on `sim_codec` for the bytes of a part, and on `sim_laws` for what a least member is.
//!
//! - `place`: a part of an entity with its bytes in both states, and the first such place of one entity that differs.
//! - `same`: whether two rows are the same, and whether two states are.
//! - `merge`: the walk over the entities of both states.
//! - `laws`: theorems about the definition, each the contract of a function that does nothing.
#![tactic(auto)]

mod laws;
mod merge;
mod place;
mod same;

pub use laws::{no_difference_is_one_spelling, the_difference_is_least};
pub use merge::difference;
pub use place::Place;
pub use same::is_same;
