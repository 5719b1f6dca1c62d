//! The commands of a turn, as a list of their own: a paid turn is handed commands, and a match file has them with their turns.

ghost use Rattle.std.specs.Prelude.{◌≡◌, map, IfOk};
ghost use Rattle.sim_play.specs.Common.{Timed as AnyTimed};

use sim_base::{Global, OutOfMemory, PlayerCommand, Timed};

/// The commands without their turns, in their order.
pub fn commands_of(alloc: Global, timeds: &[Timed]) -> Result<Vec<PlayerCommand>, OutOfMemory>
    ensures { IfOk result (λ commands. commands.items ≡ map (λ (timed : AnyTimed). timed.order) timeds.now) }
{
    let mut commands = Vec::new(alloc);
    for timed in timeds {
        commands.push(timed.order.copy()?)?;
    }
    Ok(commands)
}
