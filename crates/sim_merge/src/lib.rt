//! Trees laid over one another, and templates with all that they inherit.
//!
//! It promises that an overlay has at every path what its definition says there, and that a library has the resolved
//! tree of each template, or names the first template that has none. It stands on `sim_tree` for trees, on `sim_base`
//! for names and numbers, and on `indexmap` for names with numbers.
//!
//! - `fault`: what keeps a tree from being laid over another one, and templates from being resolved.
//! - `operation`, `words`: what becomes of values.
//! - `merge`: children by name.
//! - `laying`: a tree laid over another one.
//! - `laws`: the theorem that ties the two definitions of an overlay, as the contract of a function that does nothing.
//! - `chains`: chains of parents.
//! - `family`: templates beside their parents, and how each is resolved.
//! - `resolve`: templates with all that they inherit.
//! - `library`: the resolved templates by number.
#![tactic(auto)]

mod chains;
mod family;
mod fault;
mod laws;
mod laying;
mod library;
mod merge;
mod operation;
mod resolve;
mod words;

pub use chains::names_differ;
pub use fault::{MergeFault, OverlayFault};
pub use laws::laid_by_path;
pub use laying::overlay;
pub use library::Library;
