//! What holds of every session, whatever its steps are.
//!
//! Each fact has a name of its own in `specs/`, and each function, which does nothing, promises some of them of the session
//! over every list of steps. They are proved together, by one invariant that each step keeps. It stands on the definition
//! of a session (`sim_plain_session`) and on the laws of turns (`sim_laws`).
//!
//! - `standing`: whose past is valid, and who stands where. This excludes a cut after which old messages still come, and a
//!   server that takes a client's word for who gives a command.
//! - `turn_numbers`: what is released, and how far clients may be ahead. This excludes a server that releases a turn when
//!   most clients are done with it, a client that plays a turn before its release, and one that is done with more turns
//!   than the delay allows.
//! - `pasts`: which commands clients know, and what their pasts are. This excludes a server that hands a state on without the
//!   commands that it kept above its turn, and a client that at a load keeps what it knew.
//! - `reports`: what reports say of those who send them, and what a notice shows.
//!
//! `proofs/WrongProtocols.antt` has each of these protocols, led by a few steps to a session of which the law is false.
#![tactic(auto)]

mod pasts;
mod reports;
mod standing;
mod turn_numbers;

pub use pasts::{commands_reach_each_client, unbent_clients_agree};
pub use reports::{notices_need_bends, notices_show_differences};
pub use standing::{clients_stand_where_the_server_sees_them, pasts_lead_to_valid_states};
pub use turn_numbers::{dones_are_accepted, releases_are_kept};
