//! Territories: who holds which ground by the strength of buildings, and which of it is joined to a root.
//!
//! It promises that after any states that were followed, the influences and the holders that it lends, and the rooted cells,
//! are those of the definition over the last state. It keeps them by the shifts of a trail, so that a turn costs what came
//! and went. It stands on the trail, and on the steps of a grid.
//!
//! - `building`: an obstruction of a player, its strength and the cells within its reach.
//! - `changes`: what a shift is about, and what it does to one number.
//! - `sums`: the influence of each player at each cell, how shifts change it, and who holds a cell by it.
//! - `influences`: these beside the holder of each cell, after shifts.
//! - `flood`, `roots`: one flood from all roots.
//! - `realm`: the territories of a match.
//! - `laws`: who holds a cell, in the words of the rule.
#![tactic(auto)]

mod building;
mod changes;
mod flood;
mod influences;
mod laws;
mod realm;
mod roots;
mod sums;

pub use laws::a_holder_is_first_of_the_greatest;
pub use realm::{Flags, Realm};
