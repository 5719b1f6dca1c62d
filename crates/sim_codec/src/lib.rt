//! The codec of a stored state: which states are valid, their one spelling in bytes, the digests of them, and the state
//! that bytes stand for.
//!
//! It promises that bytes are loaded exactly where they are a spelling of a valid state, and then as that state; so a
//! valid state that is spelled and loaded is the same again, and two valid states of one match have two spellings.
//! Whether bytes stand for a state is said without memory, and memory is taken only where they do.
//! It stands on `sim_bytes` for the rows and the numbers.
//!
//! The bytes, numbers with the lowest byte first:
//!
//! ```text
//!  0  "RSIM"                 magic
//!  4  u32                    version, 2
//!  8  16 bytes               the id of the match
//! 24  u32                    turn
//! 28  u32                    the id of the next new entity
//! 32  u64                    random word
//! 40  seven sections, one behind the other, and nothing behind the last:
//!
//!     0  u8                  tag
//!     1  u32                 number of rows
//!     5  rows, ascending by id
//!
//! tag 1  Entity    6 bytes   0 id u32   4 template u16
//! tag 2  Position 12 bytes   0 id u32   4 x i32           8 z i32
//! tag 3  Owner     5 bytes   0 id u32   4 owner u8
//! tag 4  Health    8 bytes   0 id u32   4 health i32
//! tag 5  Motion   15 bytes   0 id u32   4 mode u8         5 goal x i32   9 goal z i32   13 whole u8   14 count u8
//!                 and behind it count times x i32, z i32; count is at most 64
//! tag 6  Attack   10 bytes   0 id u32   4 target u32      8 cooldown u16
//! tag 7  Stance    5 bytes   0 id u32   4 hold u8
//! ```
//!
//! Sections 1 to 3 have a row for each entity, 4 to 6 for each that has the part, and 7 for each that has section 6.
//! Points and health are raws, units of 1/65536. Mode is 0 for still and 1 for going; a still row has zeros behind its id.
//! Whole and hold are 0 or 1.
//!
//! Version 1 is read too, and never written. It has 1 at byte 4 and no section 7, so that it stands for a state no row of
//! which holds its place.
//!
//! - `look_up`: the place of a row by its id.
//! - `validity`: the test of a state.
//! - `spelling`: the writer, into a list, a digest or a comparison.
//! - `report`: what a report of a state carries, a whole or a quick digest.
//! - `fault`: why bytes are not loaded.
//! - `stored`: a state that still stands in its bytes, of which rows are taken without memory.
//! - `entities`: what ids and templates say of all entities, read off the first section.
//! - `part`, `same`, `good`: whether bytes are the spelling of the state that was read from them, and whether it is valid.
//! - `reading`, `loading`: the state in memory, and the state that bytes stand for.
//! - `bits`: the bytes of one entity in one section.
//! - `laws`: theorems about the definitions, each the contract of a function that does nothing, and that what is spelled
//!   is taken.
#![tactic(auto)]

mod bits;
mod entities;
mod fault;
mod good;
mod laws;
mod loading;
mod look_up;
mod part;
mod reading;
mod report;
mod same;
mod spelling;
mod stored;
mod validity;

pub use bits::{Bits, Part, bits_of};
pub use fault::StateFault;
pub use laws::{
    a_spelling_is_taken, bytes_stand_for_one_state, quick_bytes_are_of_places,
    spellings_are_read_back, states_can_be_told,
};
pub use loading::{load, stands};
pub use report::{FULL_EACH, is_full_turn, mark, quick};
pub use spelling::{digest, spell};
pub use validity::is_valid;
