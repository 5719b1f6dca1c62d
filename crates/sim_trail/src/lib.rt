//! What of a state matters to those who look at the ground: one mark for each entity, and how the marks change.
//!
//! It promises that a trail has the marks of the last state that it followed, and tells each change of a mark once, as one
//! that is gone and one that is born. So a sum over the marks follows from the one before and the changes, which is how
//! sight and territories are kept. It stands on `sim_base` alone, and follows states, not the board.
//!
//! - `mark`: what a trail keeps of a row.
//! - `shift`: a change of a mark, and the changes of one entity.
//! - `merge`: the changes between two lists of marks, in one pass over both.
//! - `trail`: the marks of the last state.
//! - `laws`: sums over marks follow the changes.
#![tactic(auto)]

mod laws;
mod mark;
mod merge;
mod shift;
mod trail;

pub use laws::sums_follow_the_shifts;
pub use mark::{Mark, Marks};
pub use shift::{Shift, Shifts};
pub use trail::Trail;
