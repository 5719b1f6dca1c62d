//! Bytes: a reader of little-endian numbers, places to which bytes are told, hexadecimal text, and the sections of a stored state.
//!
//! It promises that a number that is put is taken again as itself, that a refused call leaves its reader or its list as
//! it was, and that a text is read as bytes exactly where it is one of pairs of lower-case digits. Of the rows of a stored state it
//! promises that the bytes of a row are taken again as that row, and that no row's bytes begin another's in its section. A new section
//! is one more form: nothing here counts them but the walk. Two versions are read: the first has no section of stances.
//!
//! Bytes and texts:
//! - `take`: the reader.
//! - `put`: numbers at the end of a list.
//! - `sink`: places to which bytes are told: a list, a comparison.
//! - `buffer`: a short list of bytes in place.
//! - `digesting`: the MD5 of bytes that are told in small pieces.
//! - `hexadecimal`: hexadecimal text.
//! - `laws`: theorems about the definitions, each the contract of a function that does nothing.
//!
//! The sections of a stored state:
//! - `form`: what a row of any section can do, with its two laws.
//! - `rows`: the rows of fixed length: entity, position, owner, health, attack and stance.
//! - `motion`: the row of a motion, whose length depends on its way.
//! - `section`: a section told, passed over, and taken row by row.
//! - `version`: the versions of the layout.
//! - `walk`: a reader in each section, and what stands of one entity in all of them.
#![tactic(auto)]

mod buffer;
mod digesting;
mod form;
mod hexadecimal;
mod laws;
mod motion;
mod put;
mod rows;
mod section;
mod sink;
mod take;
mod version;
mod walk;

pub use buffer::Buffer;
pub use digesting::Digesting;
pub use form::RowForm;
pub use hexadecimal::{push_hex, read_hex};
pub use laws::numbers_are_read_back;
pub use motion::{MotionRow, point_of};
pub use put::{put_i32, put_u8, put_u16, put_u32, put_u64};
pub use rows::{AttackRow, EntityRow, HealthRow, OwnerRow, PositionRow, StanceRow};
pub use section::{open_section, take_if, tell_section};
pub use sink::{ByteSink, Comparing, tell_i32, tell_u8, tell_u16, tell_u32, tell_u64};
pub use take::{Short, Take};
pub use version::Version;
pub use walk::{Parts, Walk, locate, take_parts};
