//! What each player sees, and has seen: for fog of war in a host, and for an observer who joins with the explored cells of
//! a file.
//!
//! It promises that the counts are those of the rows of the last state that was followed, and that what is explored was given,
//! or visible in one of the states. A move within a cell costs no more than a look at its mark, and one into the next cell what
//! the two discs do not share. It stands on the marks of `sim_trail`.
//!
//! - `sight`: the counts and the explored cells of all players.
//! - `fog`: the two lists in which they are kept.
//! - `row`: what becomes of a row of them.
//! - `crossing`: what changes of an entity at a time.
//! - `disc`, `span`: the cells that an entity sees.
//! - `reach`: how far it sees.
//! - `fault`: why the explored cells of a file are refused.
//! - `tell`: a line for each player.
//! - `laws`: what all this comes to over any list of states.
#![tactic(auto)]

mod crossing;
mod disc;
mod fault;
mod fog;
mod laws;
mod reach;
mod row;
mod sight;
mod span;
mod tell;

pub use fault::SightFault;
pub use laws::{
    counts_are_of_the_last_state, explored_was_given_or_visible, explored_was_visible,
    lines_from_a_file, lines_from_the_start,
};
pub use sight::Sight;
pub use tell::push_sight;
