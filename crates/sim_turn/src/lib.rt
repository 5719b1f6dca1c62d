//! A turn on a board: each command and each phase plans its changes from the state as it is, and these are made.
//!
//! It promises the state of the turn function, which is valid again where the old one was, and that no system was built
//! since. It stands on `sim_board`, which makes a change and tells the systems of it, and on the planners of `sim_orders`,
//! `sim_motion` and `sim_attack`.
//!
//! - `obeying`: one command.
//! - `phase`: one phase.
//! - `rest`: whether anybody can act.
//! - `turns`: a turn with its commands.
//! - `due`: the commands of a match file that are given in a turn.
//! - `playing`: turns with the match's own commands.
#![tactic(auto)]

mod due;
mod obeying;
mod phase;
mod playing;
mod rest;
mod turns;

pub use due::due_at;
pub use obeying::obey;
pub use playing::play;
pub use turns::{run_phases, turn};
