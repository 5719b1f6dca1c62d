//! The server of a session, and the pipes of frames between it and the clients.
//!
//! It promises that a pipe is first in, first out; that each pipe holds the frames of just the messages that the definition
//! of a session has in it, a past being spelled as its state; and that the server is that of the definition. So it does all
//! of a session but what the clients do. It stands on the frames of `sim_wire`, on the server of `sim_server`, and on the
//! definition of a session in `sim_plain_session`.
//!
//! - `pipe`: a pipe.
//! - `sending`: messages framed into the pipes of all clients, which stand in a list by number.
//! - `hearing`: what the server hears, with its answer sent.
//! - `notice`: what is printed of the notices among posts.
//! - `exchange`: the server with all pipes.
//! - `laws`: theorems about the definitions, each the contract of a function that does nothing.
#![tactic(auto)]

mod exchange;
mod hearing;
mod laws;
mod notice;
mod pipe;
mod sending;

pub use exchange::Exchange;
pub use laws::posts_reach_their_clients;
pub use pipe::Pipe;
