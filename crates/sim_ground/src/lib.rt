//! The system that knows what is built where.
//!
//! It promises that it keeps the rectangles of the entities that are obstructions, as `System` says, and that a cell or a
//! rectangle is open, a way and a spot are those of the definition over these rectangles. Beside them it keeps how many of
//! them cover each cell, the grid of the open cells and the labels of their regions. It stands on the lists of facts, on the
//! grid and on the search for ways.
//!
//! - `system`: the system.
//! - `span`, `window`, `cover`: the rows and columns of a rectangle on a ground; how many rectangles cover each cell, and which cells are open.
//! - `opened`: the layers and the labels that are kept.
//! - `drawn`, `same`: those of a ground that nobody uses now; whether two grounds are the same.
//! - `mended`: the labels where the cells of a rectangle were closed or opened.
//! - `free`: whether a rectangle is free.
//! - `spot`: the open cell nearest to a point.
//! - `rooms`, `way`: the rooms of searches, which several grounds may share, with a ground that nobody uses; ways over the open cells.
#![tactic(auto)]

mod cover;
mod drawn;
mod free;
mod mended;
mod opened;
mod rooms;
mod same;
mod span;
mod spot;
mod system;
mod way;
mod window;

pub use rooms::{Contents, Rooms};
pub use system::Ground;
