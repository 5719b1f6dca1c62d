//! The turns of a match file as a log has them: a list of commands for each.

ghost use Rattle.std.specs.Prelude.{IfOk, ◌≡◌};
ghost use Rattle.sim_play.specs.{Common.IsSetup, Films.match_turns as turns_of_match};

use crate::due::commands_of;
use sim_base::{Global, Items, OutOfMemory, Setup};
use sim_replay::Turns;
use sim_turn::due_at;

/// The match's own turns, from 1 to the last.
pub fn match_turns(alloc: Global, setup: &Setup) -> Result<Turns, OutOfMemory>
    requires { IsSetup setup.now }
    ensures { IfOk result (λ turns. turns ≡ turns_of_match setup.now) }
{
    let mut turns = Turns::new(alloc);
    for before in 0..setup.turns {
        let due = due_at(setup.commands.as_slice(), before + 1);
        let commands = commands_of(alloc, due)?;
        turns.push(Items::from_items(commands))?;
    }
    Ok(turns)
}
