//! The program without its edge: the words, a shelf and a sink come in, and a status goes out.
//!
//! It promises that the words' command does what its definition says over the files that are held: the digest printed
//! after each turn is that of the turn function folded over the match's own turns, from the first state or from the one
//! that a stored state's bytes stand for, and in a session over the past of the client. Of eight rigs each that was used
//! then stands for the last state of its client, and all come back. It stands on the shelf and the sink, on the readers of
//! match files and lists and the text of a trial, on a match that is played on a board and a session of several, on the
//! codec, on the printed texts, and on the definitions of the base crate.
//!
//! - `words`: what the words ask for.
//! - `status`, `stop`: how a run ends, and why a command ends before it has its text.
//! - `inputs`: the match, the stored state and the list that a command reads, and the match of a trial.
//! - `rigs`: the first rig, which is taken out of its list and put back.
//! - `commands`: what each command makes of its files, a module for each of them.
//! - `top`: the top call.
#![tactic(auto)]

mod commands;
mod inputs;
mod rigs;
mod status;
mod stop;
mod top;
mod words;

pub use inputs::read_session_match;
pub use status::Status;
pub use stop::Stop;
pub use top::{Ended, run, stop_text};
pub use words::turn_of;
