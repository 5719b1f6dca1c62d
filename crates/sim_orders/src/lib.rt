//! Commands as changes: the task of a planner, the usual planner, which does it by the kind of the command, and the table
//! that keeps a planner of each kind as a stored function beside the fact that it keeps.
//!
//! It promises of the changes for a command that they fit the state in order, give the state of the rule, and touch no
//! row but the commander's. It stands on `sim_plans`, which has the changes as lists, and the scene, which is asked
//! for what a planner needs of the systems.
//!
//! - `help`: what a planner needs of the systems.
//! - `checks`: the conditions of commands.
//! - `named`: the ids that a command names.
//! - `ordered`: the changes of the rows that are ordered, row by row.
//! - `kind`: the kinds of commands by their numbers.
//! - `asks`: the help of a command, made by asking a scene.
//! - `task`: what a planner is asked, and the usual planner.
//! - `table`: the stored planners.
#![tactic(auto)]

mod asks;
mod checks;
mod help;
mod kind;
mod named;
mod ordered;
mod table;
mod task;

pub use help::Help;
pub use kind::kind_of;
pub use table::{Handler, OrderTable, Planner};
pub use task::Task;
