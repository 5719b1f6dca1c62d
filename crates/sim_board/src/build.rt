//! The systems are built from a state.

ghost use Rattle.{sim_board.specs.Boards.IsLooseIn, sim_system.specs.{Meanings.{AreBuiltOnce, AreBuiltOnceAtMost, AreFed, HaveKinds}, RigWords.systems_of}};
ghost use Rattle.std.specs.Prelude.{OnOk};

use crate::row::told;
use sim_base::{Global, OutOfMemory, Setup, State};
use sim_system::{Rig, System, boxed};

/// Builds each of the four once.
pub fn build(alloc: Global, setup: &Setup, state: &State, rig: &mut Rig) -> Result<(), OutOfMemory>
    requires loose { IsLooseIn setup.now state.now }
    requires kinds { HaveKinds (systems_of rig.old ⟦<dyn System as System>⟧) }
    ensures fed { OnOk result (AreFed setup.now state.now (systems_of rig.new ⟦<dyn System as System>⟧)) }
    ensures kinds { HaveKinds (systems_of rig.new ⟦<dyn System as System>⟧) }
    ensures once { OnOk result (AreBuiltOnce (systems_of rig.old ⟦<dyn System as System>⟧) (systems_of rig.new ⟦<dyn System as System>⟧)) }
    ensures most { AreBuiltOnceAtMost (systems_of rig.old ⟦<dyn System as System>⟧) (systems_of rig.new ⟦<dyn System as System>⟧) }
{
    let facts = told(alloc, setup, state)?;
    let facts = facts.as_slice();
    boxed::rebuild(&mut rig.ground, &setup.land, facts)?;
    boxed::rebuild(&mut rig.range, &setup.land, facts)?;
    boxed::rebuild(&mut rig.watch, &setup.land, facts)?;
    boxed::rebuild(&mut rig.census, &setup.land, facts)?;
    Ok(())
}
