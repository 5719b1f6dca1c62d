//! Trees of values by name, in which a match file describes its templates.
//!
//! It promises that a value of JSON is read as the one tree or source that its definition says, or refused for the first
//! cause that applies; that the children of each node ascend by name, and that there are at most 32 levels; and that
//! what is looked up at a path is what stands there. It stands on `sim_base` for names, numbers and want of memory, on
//! `serde_json` for what is read, and on `sim_json` for a word of its definitions.
//!
//! - `text`: a text that contracts see as its bytes, lent by the JSON where it stands there.
//! - `tokens`: the words of a text.
//! - `tree`: the tree, its children by name, and its copy.
//! - `paths`: what stands at a path.
//! - `fault`: why a value is no tree.
//! - `names`: whether a text is the name of a child.
//! - `walks`: what is asked of all values within a value, before a tree is read of it.
//! - `leaves`, `nodes`: a node, read from JSON, with its value, its mark and its children.
//! - `read`: a whole tree, read from JSON.
//! - `source`: a template as it is described, read from JSON.
#![tactic(auto)]

mod fault;
mod leaves;
mod names;
mod nodes;
mod paths;
mod read;
mod source;
mod text;
mod tokens;
mod tree;
mod walks;

pub use fault::TreeFault;
pub use source::Source;
pub use text::Text;
pub use tokens::{Names, tokens_in};
pub use tree::{Child, Tree, TreeMark, copy_name};
