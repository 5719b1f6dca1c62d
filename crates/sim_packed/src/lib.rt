//! Any command of the program over bytes: its words and its files come in, and what it comes to goes out. Nothing is kept, and no real
//! file is touched.
//!
//! It promises that the run is one of the words that the bytes spell, over a shelf that holds just the files that the others spell, with
//! all that the top call promises of it. Every call is total: any bytes may be handed in. It stands on the shelf in memory and on the run
//! with a handler for each kind of command and of deed.
//!
//! - `words`: the words that bytes spell.
//! - `files`: the files that bytes spell, on a shelf in memory.
//! - `text`: a sink in memory without a room.
//! - `storing`: the name of the file that words ask to write.
//! - `running`: the run.
//! - `laws`: theorems about the definitions, each the contract of a function that does nothing.
#![tactic(auto)]

mod files;
mod laws;
mod running;
mod storing;
mod text;
mod words;

pub use laws::what_is_packed_is_read_back;
pub use running::{Printed, Unrun, run};
