//! The texts that the program prints, each appended to a text just as its definition says.
//!
//! It promises the exact bytes, and nothing of how they come out. Each call that appends answers want of memory alone,
//! and the text is then as it was. It stands on the records of `sim_base`, on `sim_codec` and `sim_diff` for the place
//! at which two states differ, on `sim_wire` for messages, and on `sim_bytes` for bytes in hexadecimal.
//!
//! - `line`: how the program is called, and the lines of a turn and of a stored state.
//! - `log`: the lines about logs.
//! - `show`: a state, row by row.
//! - `down`: a message of the server.
//! - `served`: the lines of a server.
//! - `event`: the events of a session.
//! - `refusal`: why something is refused.
//! - `place`: where two states differ.
//! - `stock`: what each player has in the end.
//! - `territory`: what each player holds of the ground.
//! - `parts`: the templates of a match, with their parts.
//! - `ways`: the ways of the rows of a state.
#![tactic(auto)]

mod down;
mod event;
mod line;
mod log;
mod parts;
mod place;
mod refusal;
mod served;
mod show;
mod stock;
mod territory;
mod ways;

pub use down::{push_down, push_turn_order};
pub use event::push_event;
pub use line::{push_saved, push_turn, push_usage};
pub use log::{push_agree, push_apart, push_logged};
pub use parts::push_parts;
pub use place::{part_name, push_place};
pub use refusal::{Refusal, push_refusal};
pub use served::{push_kept, push_post, push_released};
pub use show::push_show;
pub use stock::push_stock;
pub use territory::{push_holding, push_map};
pub use ways::push_ways;
