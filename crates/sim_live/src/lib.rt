//! A session, and the server alone, as talks: each line is answered before the next one is heard.
//!
//! In a session a line is a step as in a list of steps, or only looks; at the server it is what arrives from a client, and is answered by
//! the frames that go to whom. It promises, for every input: what passed is the start, then each line with just its answer, and at the
//! end of the input what it has come to; where it stopped, all lines but the last one are answered whole. So for each prefix of the
//! steps that was read, the lines that were told are those of the defined session over that prefix, and the answers of the server are
//! those of the defined one over all that has arrived, whatever bytes the clients sent. It stands on `sim_talk` for what is heard and
//! told, on `sim_session` and `sim_server` for what is done, on `sim_lists` for the reading of a step and of an arrival, and on
//! `sim_report` for what is printed.
//!
//! - `look`, `line`: what only looks, and what a line asks for.
//! - `looking`, `answering`: what is answered to a look, and to a line.
//! - `living`: the whole talk over a session.
//! - `arriving`, `replying`: what arrives by a line at the server, and what is answered to it.
//! - `relaying`: the whole talk with the server.
#![tactic(auto)]

mod answering;
mod arriving;
mod line;
mod living;
mod look;
mod looking;
mod relaying;
mod replying;

pub use arriving::{Arriving, arriving_of};
pub use line::{Line, line_of};
pub use living::live;
pub use look::{Look, look_of};
pub use relaying::{RelayRules, relay};
