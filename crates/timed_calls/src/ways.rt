//! Ways on large grounds, by the whole search, by labels and in kept rooms: that all find the same, and what they cost.
//!
//! - `site`: grounds of several kinds, with their labels.
//! - `pairs`: random cells.
//! - `agreement`: that all searches find one way.
//! - `measure`: what ways cost.

mod agreement;
mod measure;
mod pairs;
mod site;

pub use agreement::agree;
pub use measure::measure;
