//! A rig more for a run. Whoever runs the program makes the boxes of its systems in his own body, since a function may hand out
//! none that it makes.

ghost use Rattle.{sim_client.specs.StageWords.AreCleared, sim_system.specs.Meanings.HaveKinds, sim_system.specs.RigWords.systems_of};
ghost use Rattle.std.specs.Prelude.{◌≡◌, ◌+◌, length, OnOk, All};

use sim_base::OutOfMemory;
use sim_system::{Rig, System};

/// Clears the rig and adds it at the end.
pub fn add_rig(rigs: &mut Vec<Rig>, mut rig: Rig) -> Result<(), OutOfMemory>
    requires rig { HaveKinds (systems_of rig ⟦<dyn System as System>⟧) }
    requires kinds { All (λ r. HaveKinds (systems_of r ⟦<dyn System as System>⟧)) rigs.old.items }
    requires cleared { All (λ r. AreCleared (systems_of r ⟦<dyn System as System>⟧)) rigs.old.items }
    ensures count { OnOk result (length rigs.new.items ≡ length rigs.old.items + 1) }
    ensures kinds { OnOk result (All (λ r. HaveKinds (systems_of r ⟦<dyn System as System>⟧)) rigs.new.items) }
    ensures cleared { OnOk result (All (λ r. AreCleared (systems_of r ⟦<dyn System as System>⟧)) rigs.new.items) }
{
    rig.clear();
    rigs.push(rig)?;
    Ok(())
}
