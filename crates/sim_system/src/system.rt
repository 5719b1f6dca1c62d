//! What each system can do.

ghost use Rattle.std.specs.Prelude.{IfOk, IsOk, OnErr, OnOk, ◌≡◌};
ghost use Rattle.sim_system.specs.Meanings.{built, cleared, counted, IsAnswer, MayAnswer, MayHear, Meaning, NeedsNoMemory, told};
ghost use Rattle.{sim_base.specs.Limits.IsLand, sim_system.specs.Notes.AreInRange};

use crate::{Answer, Ask, Fact, Kind, Note};
use sim_base::{Land, OutOfMemory};

/// A system keeps the part of a state that it is asked about. It is built from all facts of a state, and then told of
/// each change.
pub trait System: Drop {
    /// Its kind, its land, the facts that it keeps, and how often it was built.
    ghost meaning: { Self → Meaning };

    /// Its kind, which never changes.
    fn kind(&self) -> Kind
        ensures { result ≡ (meaning self.now).kind };

    /// Forgets the land and all facts.
    fn clear(&mut self)
        ensures { meaning self.new ≡ cleared (meaning self.old) };

    /// Builds it from the facts of a state: it keeps of them what its kind keeps. After an error it is cleared.
    fn rebuild(&mut self, land: &Land, facts: &[Fact]) -> Result<(), OutOfMemory>
        requires land { IsLand land.now }
        requires facts { AreInRange land.now facts.now }
        ensures ok { OnOk result (meaning self.new ≡ counted (built land.now facts.now (meaning self.old))) }
        ensures err { OnErr result (meaning self.new ≡ counted (cleared (meaning self.old))) };

    /// Tells it what has become of an entity.
    fn on(&mut self, note: &Note) -> Result<(), OutOfMemory>
        requires { MayHear (meaning self.old) note.now }
        ensures ok { OnOk result (meaning self.new ≡ told (meaning self.old) note.now) }
        ensures err { OnErr result (meaning self.new ≡ meaning self.old) };

    /// Asks it.
    fn ask(&self, ask: &Ask) -> Result<Answer, OutOfMemory>
        requires { MayAnswer (meaning self.now) ask.now }
        ensures answer { IfOk result (IsAnswer (meaning self.now) ask.now) }
        ensures sure { NeedsNoMemory ask.now → IsOk result };

    /// How often it was built.
    fn rebuilds(&self) -> u64
        ensures { result ≡ (meaning self.now).rebuilds };
}
