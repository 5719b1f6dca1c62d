//! The search for the least costs of walks over a grid of cells, and the labels of its regions.
//!
//! It promises that each cost is the least of all walks, as far as the search has gone, and that a label tells which cells
//! are joined. What follows a search, as the way to its end, reads its costs and its key and stands above.
//!
//! - `steps`: the steps that are allowed.
//! - `costs`, `entry`: a cost for each cell that the search has come to.
//! - `aim`: what is known of the cost from a cell on, and where a search goes.
//! - `landmarks`, `row`, `survey`, `ahead`: least costs from a few cells of a ground, and what they tell of the cost from a cell on.
//! - `distances`, `goal`, `toward`: least costs from one goal, and the estimate that they are.
//! - `search`, `origin`, `queue`, `drain`: the search, by buckets of cells that wait at one cost and estimate, where it starts, and how
//!   far it has come.
//! - `labels`, `table`: labels of regions, which tell what is reached.
//! - `region`, `mend`: cells that are joined nearby; labels of a ground on which some cells were closed or opened.
//! - `laws`: theorems about the search for every estimate, and about labels, each the contract of a function that does
//!   nothing.
#![tactic(auto)]

mod ahead;
mod aim;
mod costs;
mod distances;
mod drain;
mod entry;
mod goal;
mod labels;
mod landmarks;
mod laws;
mod mend;
mod origin;
mod queue;
mod region;
mod row;
mod search;
mod steps;
mod survey;
mod table;
mod toward;

pub use ahead::Ahead;
pub use aim::{Aim, Guide};
pub use costs::Costs;
pub use distances::Distances;
pub use drain::{Stage, go_on, least_costs, search_of, started};
pub use goal::distances_to;
pub use labels::{Labels, labels_of};
pub use landmarks::Landmarks;
pub use laws::{labels_tell, no_label_is_closed, search_goes_on, taken_in_order, taken_is_least};
pub use mend::{mend_closed, mend_opened};
pub use search::Search;
pub use steps::{is_free, moves_from, step, step_beside, step_cost};
pub use survey::landmarks_on;
pub use toward::Toward;
