//! Reading JSON: the value of a text, its lists and numbers, its kinds and keys, and commands as lists of a kind and what follows it.
//!
//! It promises that each reader answers what its definition says of the value, and that nothing but the text itself
//! asks for memory. A list spells the one command of the seven kinds, or none; what stands before the kind, as a turn or a
//! player, is left to the lists that have commands in them. It stands on `serde_json` for the value, and on `sim_base` for
//! commands and the name of want of memory. Its `specs/` also have the two ways in which a list of records is read, as a whole or
//! up to the first item that is refused; every reader of a list meets one of them.
//!
//! - `values`: texts, lists, numbers.
//! - `kinds`: of which kind a value is.
//! - `keys`: which keys an object has.
//! - `ids`: ids and numbers of templates.
//! - `command_kinds`: commands by their kinds.
#![tactic(auto)]

mod command_kinds;
mod ids;
mod keys;
mod kinds;
mod values;

pub use command_kinds::{command_of, three};
pub use ids::{id_in, ids_of};
pub use keys::{is_among, other_key};
pub use kinds::{has_list, has_row, has_table, has_table_of, has_whole};
pub use values::{
    fixed, four, front_two, list_at, list_of, natural, natural_at, natural_in, two, value_of,
};
