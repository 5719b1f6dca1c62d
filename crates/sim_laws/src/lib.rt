//! Theorems about the definitions of `sim_base`, each the contract of a function that does nothing.
//!
//! They stand in a crate of their own, so that `sim_base` is checked quickly. A state that is valid stays so, whatever players
//! order and whatever is bent, up to the last turn of the match. `specs/` says each law in one line, and `proofs/` has beside the
//! proofs `Examples`: ways that were worked out by hand, computed.
//!
//! - `numbers`: the root is the greatest.
//! - `ways`: what a way is determines it, and the plain function answers it.
//! - `states`: a valid state is loosely valid, and a match begins valid.
//! - `commands`: each command of a player of the match keeps a state valid.
//! - `phases`: each phase of a turn keeps a state loosely valid, and the last one makes it valid again.
//! - `turns`: so a turn, a bend and every past keep a state valid.
#![tactic(auto)]

mod commands;
mod numbers;
mod phases;
mod states;
mod turns;
mod ways;

pub use commands::{
    a_command_is_no_turn, a_command_keeps_a_state_loosely_valid, a_command_keeps_a_state_valid,
    a_command_keeps_the_order, a_command_leaves_others,
};
pub use numbers::{the_root_is_greatest, the_root_is_unique};
pub use phases::{aiming_keeps, gone_is_valid, hitting_keeps, moving_keeps};
pub use states::{a_valid_state_is_loosely_valid, the_first_state_is_valid};
pub use turns::{
    a_bend_keeps_a_state_valid, a_turn_keeps_a_state_valid, after_a_past_a_state_is_valid,
    own_turns_are_a_past, since_a_state,
};
pub use ways::{
    a_way_is_way_of, inside_is_on_ground, one_way, way_of_by_ground, way_of_is_a_way,
    way_of_is_short, way_of_stays_inside,
};
