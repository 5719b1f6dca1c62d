//! The calls of a system in a box. A caller proves what it says of them by the contracts here, which are those of
//! `System` with the box for the system.

ghost use Rattle.std.specs.Prelude.{IfOk, IsOk, OnErr, OnOk, ◌≡◌};
ghost use Rattle.sim_system.specs.Meanings.{built, cleared, counted, IsAnswer, MayAnswer, MayHear, NeedsNoMemory, told};
ghost use Rattle.{sim_base.specs.Limits.IsLand, sim_system.specs.Notes.AreInRange};

use crate::{Answer, Ask, Fact, Note, System};
use sim_base::{Land, OutOfMemory};

/// Builds the system from the facts of a state.
pub fn rebuild(system: &mut Box<dyn System>, land: &Land, facts: &[Fact]) -> Result<(), OutOfMemory>
    requires land { IsLand land.now }
    requires facts { AreInRange land.now facts.now }
    ensures ok { OnOk result (meaning system.new ≡ counted (built land.now facts.now (meaning system.old))) }
    ensures err { OnErr result (meaning system.new ≡ counted (cleared (meaning system.old))) }
{
    system.rebuild(land, facts)
}

/// Tells the system what has become of an entity.
pub fn tell(system: &mut Box<dyn System>, note: &Note) -> Result<(), OutOfMemory>
    requires { MayHear (meaning system.old) note.now }
    ensures ok { OnOk result (meaning system.new ≡ told (meaning system.old) note.now) }
    ensures err { OnErr result (meaning system.new ≡ meaning system.old) }
{
    system.on(note)
}

/// Asks the system.
pub fn ask(system: &Box<dyn System>, ask: &Ask) -> Result<Answer, OutOfMemory>
    requires { MayAnswer (meaning system.now) ask.now }
    ensures answer { IfOk result (IsAnswer (meaning system.now) ask.now) }
    ensures sure { NeedsNoMemory ask.now → IsOk result }
{
    system.ask(ask)
}
