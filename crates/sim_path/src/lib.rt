//! The shortest way over a grid of cells, with one fixed choice among ties.
//!
//! It promises the way of the definition: no walk to its end is shorter, no reached cell precedes the end, and each cell
//! before another is the first in the order of the directions. It stands on `sim_search`, which finds the least costs.
//!
//! - `end`, `reached`, `trail`: where a way ends, and the cells back from there to the start.
//! - `nearest`: the reached cells that are nearest to a goal.
//! - `question`: what a search is asked.
//! - `floor`, `tight`, `step_back`, `marks`, `unmarked`: ways that cost no more than it is known that they must, found back from their end.
//! - `straight`: what the octile distance tells of that, so that a straight way is found with no search.
//! - `front`, `away`, `milestone`: what a search knows of that to a far goal, so that the way is found before all cells are searched that
//!   cost as much.
//! - `slope`, `live`, `stand`: what distances to a goal tell of it, so that the way is found with no search, and a winding one with no dead ends.
//! - `atlas`, `kept`: landmarks of a ground, distances to some goals on it, and its open cells, which are kept from one search to the
//!   next.
//! - `dear`: the goals to which searches were dear.
//! - `trip`, `remembered`: ways that are remembered.
//! - `answer`: the way, by its points, and the rooms that are kept from one search to the next.
//!
//! The labels and the laws of `sim_search` can be had here too, since whoever asks a way needs them.
#![tactic(auto)]

mod answer;
mod atlas;
mod away;
mod dear;
mod end;
mod floor;
mod front;
mod kept;
mod live;
mod marks;
mod milestone;
mod nearest;
mod question;
mod reached;
mod remembered;
mod slope;
mod stand;
mod step_back;
mod straight;
mod tight;
mod trail;
mod trip;
mod unmarked;

pub use answer::{Searcher, way, way_with};
pub use sim_search::{
    Labels, labels_of, labels_tell, no_label_is_closed, search_goes_on, taken_in_order,
    taken_is_least,
};
