//! One note to all four systems.

ghost use Rattle.{sim_board.specs.{Boards.AreKept, Hearing.{all_told, AllMayHear}}, sim_system.specs.{Meanings.HaveKinds, RigWords.systems_of}};
ghost use Rattle.std.specs.Prelude.{OnOk, ◌≡◌};

use sim_base::OutOfMemory;
use sim_system::{Note, Rig, System, boxed};

/// Tells all four systems.
pub fn tell_all(rig: &mut Rig, note: &Note) -> Result<(), OutOfMemory>
    requires kinds { HaveKinds (systems_of rig.old ⟦<dyn System as System>⟧) }
    requires may { AllMayHear (systems_of rig.old ⟦<dyn System as System>⟧) note.now }
    ensures told { OnOk result (systems_of rig.new ⟦<dyn System as System>⟧ ≡ all_told (systems_of rig.old ⟦<dyn System as System>⟧) note.now) }
    ensures kept { AreKept (systems_of rig.old ⟦<dyn System as System>⟧) (systems_of rig.new ⟦<dyn System as System>⟧) }
{
    boxed::tell(&mut rig.ground, note)?;
    boxed::tell(&mut rig.range, note)?;
    boxed::tell(&mut rig.watch, note)?;
    boxed::tell(&mut rig.census, note)?;
    Ok(())
}
