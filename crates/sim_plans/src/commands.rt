//! Laws of the changes of a command.

ghost use Rattle.sim_plans.specs.Plans.{CommandIsOwn, CommandIsPlanned};

/// The changes of a command fit and give it, and each names a row of the commander or makes one for him.
pub fn a_command_is_planned()
    ensures planned { CommandIsPlanned }
    ensures own { CommandIsOwn }
{}
