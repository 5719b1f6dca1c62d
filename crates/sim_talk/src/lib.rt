//! A talk: lines come in and texts go out, and each text is told before the next line is asked for, and written before one is waited for.
//!
//! A line is read in pieces, and no longer than it may be, so that whoever talks can't take memory by what he sends. What comes and
//! what goes are traits, as files and the output are, so that a talk is proved for every input and output, real or in memory. It
//! promises which bytes a line takes of the input, which fault stands for what, that of what was told a beginning is written and the rest
//! is kept, and that nothing is kept where the input is read.
//! The crate stands on `sim_store`, for the sink and for calls that are counted, and on std.
//!
//! - `fault`: why a line was not heard, and why a talk ended.
//! - `source`: the trait of an input.
//! - `ahead`: bytes that were read and not heard yet.
//! - `kept`: texts that were told and not written yet.
//! - `talk`: the trait of a talk, and how one ends.
//! - `marks`: the line behind each answer.
//! - `line_talk`: a talk over an input and a sink.
//! - `mem_source`, `mem_talk`: an input and a talk in memory.
//! - `prompt_talk`, `words`: a talk with somebody at a terminal, who may type words.
#![tactic(auto)]

mod ahead;
mod fault;
mod kept;
mod line_talk;
mod marks;
mod mem_source;
mod mem_talk;
mod prompt_talk;
mod source;
mod talk;
mod words;

pub use fault::{HearFault, TalkFault};
pub use line_talk::LineTalk;
pub use marks::{push_ok, push_refused};
pub use mem_source::MemSource;
pub use mem_talk::{MemTalk, Piece};
pub use prompt_talk::PromptTalk;
pub use source::Source;
pub use talk::{Talk, settled};
pub use words::json_of;
