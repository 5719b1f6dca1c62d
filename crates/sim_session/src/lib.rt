//! A session of a match, and what is printed of it: clients that play on boards, a server, and pipes of real frames between them.
//!
//! It promises that a session stands for that of the definition over the steps so far: the state of each client is that after
//! its past, each pipe holds the frames of just the messages in it, and the server is that of the definition. A step answers
//! just the events of the definition, and one that is not enabled wants no memory. All rigs come back in the order and in the
//! room in which they came, also where memory was refused, and only the start of a client and a state that it loads build its
//! systems, once at most.
//!
//! The text of a session is defined in `specs/` over the session in which messages carry pasts. It promises just that text, lines
//! that are appended exactly, and what the text shows whatever the steps are. Of a schedule that is run through the server it
//! promises a line of each message that the definition of the server gives for the arrivals, in order, then the turns that it has
//! released, and how many commands it keeps of which turn.
//!
//! It stands on `sim_client` for what a client does, on `sim_pipes` for the server and the pipes, on `sim_session_laws`, by which no
//! state that is heard is refused, on `sim_lists` for schedules, on `sim_diff` for the place at which two states differ, and on
//! `sim_report` for lines.
//!
//! A session:
//! - `printing`: the events of what a client did.
//! - `acting`: the kinds of step, each by one client beside the server and the pipes.
//! - `hearing`: that kind in which a client hears a message.
//! - `rigs`: clients made of rigs, and rigs taken back from clients.
//! - `session`: the session.
//!
//! Its text:
//! - `told`: the lines of events, and of what a server has come to.
//! - `apart`: the lines of clients whose states differ.
//! - `ending`: the line of what a client has come to.
//! - `pipe`: the line of a pipe.
//! - `clients`: what is seen of a client, and of two beside each other.
//! - `closing`: all that a session has come to.
//! - `laws`: what the text shows of every session.
//! - `hosting`: a session that is begun, goes through its steps and is told.
//! - `recording`: one that goes through its steps for the commands of its released turns.
//!
//! A schedule through the server:
//! - `serve`: the run.
//! - `notices`: what the notices among all that is said are.
#![tactic(auto)]

mod acting;
mod apart;
mod clients;
mod closing;
mod ending;
mod hearing;
mod hosting;
mod laws;
mod notices;
mod pipe;
mod printing;
mod recording;
mod rigs;
mod serve;
mod session;
mod told;

pub use apart::{push_apart, push_difference};
pub use clients::end_of;
pub use closing::{push_ending, push_pipes};
pub use ending::{End, push_end};
pub use hosting::{push_starts, session_text};
pub use laws::{
    clients_apart_differ, each_play_is_printed, endings_are_seen, printed_digests_are_of_pasts,
    printed_notices_are_of_reports,
};
pub use notices::notices_are_those_of_the_list;
pub use pipe::push_pipe;
pub use recording::released_turns;
pub use serve::{push_all_kept, served_text};
pub use session::Session;
pub use told::{push_events, push_server};
