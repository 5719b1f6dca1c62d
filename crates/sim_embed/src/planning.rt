//! The one planner of all commands. It is stored once for each kind, and stands here since a handler is a function of the crate that
//! stores it.

ghost use Rattle.sim_orders.specs.Orders.{Fulfils, IsGiven, kind_of};

use sim_base::{Changes, Global, OutOfMemory};
use sim_orders::Task;

/// The changes that the planner of the command's kind makes.
pub fn planned(alloc: Global, task: &Task<'_>) -> Result<Changes, OutOfMemory>
    requires { IsGiven (kind_of task.now.command.now) task.now }
    ensures { Fulfils task.now result }
{
    task.plan(alloc)
}
