//! The phase in which rows move, as changes: each row is moved by the state before the phase, along its way or after its
//! target.
//!
//! It promises changes that fit the state in order and give the phase of the rule. A way is asked of the scene only where
//! the rule asks one. It stands on `sim_plans`, which has the changes as a list, and the scene.
//!
//! - `far`: how far apart two points are.
//! - `walk`: how far a budget leads along waypoints.
//! - `chase`: what a row does by its target.
//! - `course`: where a row goes.
//! - `moves`: where a row comes to, and how it goes on.
//! - `phase`: the changes of all rows.
#![tactic(auto)]

mod chase;
mod course;
mod far;
mod moves;
mod phase;
mod walk;

pub use phase::motion_changes;
