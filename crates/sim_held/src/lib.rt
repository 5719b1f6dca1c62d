//! What a program holds from call to call: a client of the protocol, the turn server, and a match that is played on in memory.
//!
//! All of it is plain data: no system, no planner and no board is held. A call that plays makes these anew, once for all the turns that
//! it plays. So each thing that is held can be handed to a program of another language, which keeps it and gives it back.
//!
//! It promises that each call makes of what is held what the definition of the library's call below it makes; that every call is total,
//! whatever numbers and bytes it is given; and what holds after want of memory: a client is off, with nothing to be sent, as one that
//! was cut off, and a server and a match are as they were. It stands on `sim_client` and `sim_server`, which say what a client and the
//! server do, on `sim_wire` for their frames, and on `sim_embed` for what bytes stand for.
//!
//! - `stage`: what a client keeps, and what a call came to.
//! - `outbox`: the frames that wait for the server.
//! - `copying`: a state in memory of its own.
//! - `playing`: a client that plays, apart from what is held.
//! - `boards`: the first state, and turns on a board that is made for the call.
//! - `turns`: the turns that a client plays on a board.
//! - `beginning`, `acting`, `hearing`: how a client begins, its steps, and what it hears.
//! - `reading`: the bytes that it is given.
//! - `planning`: the one planner of all commands.
//! - `client`, `server`, `game`: what is held; `waiting`: what waits for the clients of a server; `held`: one of the three.
#![tactic(auto)]

mod acting;
mod beginning;
mod boards;
mod client;
mod copying;
mod game;
mod hearing;
mod held;
mod outbox;
mod planning;
mod playing;
mod reading;
mod server;
mod stage;
mod turns;
mod waiting;

pub use client::HeldClient;
pub use game::HeldMatch;
pub use held::Held;
pub use server::HeldServer;
pub use stage::{Stage, Went};
