//! Reading match files: the setup that the bytes of a file stand for, or the one code and index by which they are
//! refused.
//!
//! It promises that the answer is exactly that of its definition, that every setup meets the limits that the crates
//! above count on, and that the index of a refusal is the least. It stands on `sim_base` for what a setup is, on
//! `serde_json` for the text, on `md5` for the id of a match, on `sim_json` for values, on `sim_tree`, `sim_merge` and
//! `sim_traits` for templates, and on `sim_json` for commands.
//!
//! One module has the passes of one code or key, in the order in which they run:
//!
//! - `fault`: how a file is refused.
//! - `shape`: code 2, the ten keys and the kinds of their values.
//! - `sources`: code 2 at each template, and code 3 for them all.
//! - `ground`, `players`, `rules`: code 3, numbers and lists within their limits.
//! - `resolved`: codes 4 to 6, templates with all that they inherit.
//! - `templates`: code 7.
//! - `entities`: codes 3 and 8.
//! - `commands`, `crowd`: codes 9 and 10.
//! - `reading`: codes 3 to 10 at the lists, which are read by the ground and the rules.
//! - `passes`: all of them, one after another; and code 11.
//! - `laws`: what the index of a refusal says of a list.
#![tactic(auto)]

mod commands;
mod crowd;
mod entities;
mod fault;
mod ground;
mod laws;
mod passes;
mod players;
mod reading;
mod resolved;
mod rules;
mod shape;
mod sources;
mod templates;

pub use fault::SetupFault;
pub use laws::{
    command_index_is_least, entity_index_is_least, fall_index_is_least, source_index_is_least,
    template_index_is_least,
};
pub use passes::{session_setup_of, setup_of};
