//! Laws of the changes of a turn.

ghost use Rattle.sim_plans.specs.Plans.{TurnIsPlanned};

/// The changes of a turn, each plan made for the state which those before it leave.
pub fn a_turn_is_planned()
    ensures { TurnIsPlanned }
{}
