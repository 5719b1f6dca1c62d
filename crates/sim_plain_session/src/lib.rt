//! The session of a match: a server, clients that play the match's turns, and pipes of messages between them.
//!
//! In `specs/` it defines a session over every list of steps, in which a message carries a past in place of the bytes of a
//! state: what a client is, what each step and each message that it hears makes of it, and what is printed. The
//! definitions compute. It promises what follows from them with no look at what came before; what holds of the sessions
//! that steps lead to is in `sim_session_laws`. It stands on the definitions of turns (`sim_base`) and of the server
//! (`sim_plain`).
//!
//! - `bytes`: the same session with the bytes of states in its messages.
//! - `marks`: what a report shows at a full turn, and what a quick one hides.
//! - `players`: a client with a state in place of a past.
//! - `printed`: the server and the notices of all arrivals, what each event shows, and which events a step has. This excludes
//!   a server that compares a report with the one before it in place of the first of its turn, and a client that prints the
//!   digest of the state before the turn or the bend, that of its first life after it has loaded anew, or nothing of every
//!   second turn (`proofs/WrongPrints.antt`).
//!
//! `proofs/Generated*.antt` compute thirty generated sessions to what an independent program gave for them.
#![tactic(auto)]

mod bytes;
mod marks;
mod players;
mod printed;

pub use bytes::a_session_in_bytes_is_the_same;
pub use marks::reports_are_full_or_quick;
pub use players::players_stand_for_clients;
pub use printed::{
    a_server_is_after_its_arrivals, events_show_states, sessions_go_on, steps_have_events,
};
