//! The words that every other crate speaks: numbers, places, and the records of a match, a state and a session.
//!
//! It promises that arithmetic on numbers is exact or refused, that a printed number reads back as itself, and that
//! a list is what was put into it. It stands on std alone; the definition of a digest names the MD5 of crate `md5`.
//! Beside the types, `specs/` has the definitions that the contracts of all crates cite: what a valid state is, what a
//! way is, what a turn makes of a state, and how a state is spelled in bytes. Theorems about them are in `sim_laws`.
//!
//! - `memory`: the one error of a call that takes memory.
//! - `decimal`: whole numbers as text.
//! - `fixed`, `read`, `print`: fixed-point numbers, and their texts.
//! - `number`: the root, and the steps of the random word.
//! - `items`: the one list type under all plural names.
//! - `name`: the names of templates and of the children of a tree.
//! - `place`: points, cells and rectangles.
//! - `template`, `setup`, `command`: what a match is made of.
//! - `state`, `change`: what a match has come to, and the small steps that change it.
//! - `step`: the steps of a session, and the events that they print.
#![tactic(auto)]

mod change;
mod command;
mod decimal;
mod fixed;
mod items;
mod memory;
mod name;
mod number;
mod place;
mod print;
mod read;
mod setup;
mod state;
mod step;
mod template;

pub use change::{Change, Changes};
pub use command::{Command, PlayerCommand};
pub use decimal::push_decimal;
pub use fixed::Fixed;
pub use items::{Ids, Items};
pub use memory::OutOfMemory;
pub use name::Name;
pub use number::{next_word, root};
pub use place::{Cell, Point, Points, Rect, Rects, cell_of, centre_of, rect_of, square};
pub use setup::{First, Firsts, Land, Setup, Timed, Timeds};
pub use state::{Aim, MAX_ROWS, MAX_STATE, MAX_WAYPOINTS, Motion, Row, Rows, State};
pub use step::{Event, Events, Step, Steps};
pub use template::{Arms, Base, Harm, Resist, Template, Templates};

// Where memory is taken from, passed on beside the want of it: who takes any names both in one line.
pub use std::alloc::Global;
