//! Where the program's bytes come from and go to: a shelf of files with names, and a sink for its text.
//! Both are traits, so that whoever calls them is proved for every shelf and every sink, real or in memory.
//! They promise what each call changes, and that faults, misses and bytes handed out are counted, and nothing else is:
//! so an answer that blames a fault has a count to show for it. Over them whole files are read and written, and whole
//! texts written. The crate stands on `sim_base`, for the name of want of memory, and on std.
//!
//! - `fault`: what can go wrong, call by call.
//! - `counts`: the four counts of a shelf.
//! - `shelf`, `sink`: the two traits.
//! - `read`, `write`: whole files and whole texts, over any shelf and sink.
//! - `held`, `open_file`: files in memory.
//! - `calls`: calls that are counted, some of which are to fail.
//! - `mem_shelf`, `mem_sink`: the shelf and the sink in memory.
#![tactic(auto)]

mod calls;
mod counts;
mod fault;
mod held;
mod mem_shelf;
mod mem_sink;
mod open_file;
mod read;
mod shelf;
mod sink;
mod write;

pub use calls::Calls;
pub use counts::{Counts, one_more};
pub use fault::{Failed, ShelfFault, StoreFault};
pub use mem_shelf::MemShelf;
pub use mem_sink::MemSink;
pub use read::{MAX_FILE, read_file};
pub use shelf::Shelf;
pub use sink::Sink;
pub use write::{write_file, write_out};
