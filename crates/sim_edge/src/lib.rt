//! The program's edge as a library: real files and a real output as a shelf and a sink, and the run with all planners.
//!
//! Whatever the edge does is done here, over any system of files, any reader and any writer, so that it is proved for each of
//! them and tried in memory; `main` only picks the real ones. It promises that each call answers what the system answered,
//! that a call which a signal interrupted is made again, and that each fault has its count. Of the talks, to which words, a shelf and
//! a talk come in and out of which goes how it ended, it promises that one over a session is that over the match of its file, and one of
//! the server that by the numbers of its words; and that each way to end has its number. It stands on the shelf and the sink, on the
//! orders, on the top call, and on `sim_live` for the two talks.
//!
//! - `system`: the files of a system, by their paths.
//! - `device`: what bytes are read from and written to.
//! - `again`: one read and one write, made again where a signal interrupts it.
//! - `faults`: what an error is called, and what is counted for it.
//! - `shelf`, `sink`, `source`: the shelf of a system's files, the sink of a writer, and the input of a reader.
//! - `words`: the words of the command line, and the number that the process ends with.
//! - `rigs`: a rig more for a run.
//! - `deeds`: the handlers of deeds.
//! - `asking`: what the words of a talk ask for.
//! - `ending`: how a talk ends.
//! - `conversing`: the top call of the talks.
//! - `talking`: a talk with a planner for each kind of command.
//! - `help`: what is told at a terminal where somebody asks for help.
//! - `running`: the run with a handler for each kind of command and of deed.
#![tactic(auto)]

mod again;
mod asking;
mod conversing;
mod deeds;
mod device;
mod ending;
mod faults;
mod help;
mod rigs;
mod running;
mod shelf;
mod sink;
mod source;
mod system;
mod talking;
mod words;

pub use asking::{Asked, MAX_LINE, MAX_RELAY_LINE, asked_of, most_of};
pub use conversing::{Talked, converse};
pub use device::{Readable, Writable};
pub use ending::Ending;
pub use help::help_of;
pub use rigs::add_rig;
pub use running::{planned, run_with};
pub use shelf::FileShelf;
pub use sink::OutSink;
pub use source::InSource;
pub use system::{FileSystem, SystemFiles};
pub use talking::{talk_number, talk_with};
pub use words::{exit_number, words_of};
