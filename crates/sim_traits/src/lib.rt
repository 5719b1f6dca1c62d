//! The parts of a template: a resolved tree read as what a kind of entity is.
//!
//! It promises that a tree has exactly the template of the table below, or is refused for the first cause that applies,
//! and that every template meets the limits that the crates above count on. It stands on `sim_tree` for trees, on
//! `sim_merge` for the names of templates, on `sim_base` for templates and numbers, and on `sim_json` for a definition.
//!
//! ```text
//! part      number  child                 kind and range                            left out
//! Health    1       Max                   raw, 1 to 1,048,576,000                   refused
//! Resist    2       Hack, Pierce, Crush   whole, 0 to 40                            0
//! Motion    3       Speed                 raw, 5 to 6,553,600                       refused
//! Obstruct  4       Width, Depth          whole, 1 to 16                            refused
//! Attack    5       Hack, Pierce, Crush   raw, 0 to 65,536,000                      0
//!                   Range, Vision         raw, 0 to 16,777,216                      refused
//!                   Repeat                whole, 0 to 1000                          refused
//!                   Accuracy              whole, 0 to 100                           100
//! Train     6       Units                 words, at most 64, each a template's name refused
//! ```
//!
//! A raw counts units of 1/65536. A part that is not there is absent from the template; without Resist all levels are 0.
//!
//! - `fault`: why a tree is refused.
//! - `table`: whether a tree has nothing beside what the table lists.
//! - `fields`: the texts of a part's children, and the numbers that they spell.
//! - `parts`: the parts that take no memory.
//! - `units`: the list of what a template trains.
//! - `template`: all parts, one after another.
#![tactic(auto)]

mod fault;
mod fields;
mod parts;
mod table;
mod template;
mod units;

pub use fault::TraitFault;
pub use template::template_of;
