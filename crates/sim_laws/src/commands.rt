//! Laws of commands.

ghost use Rattle.sim_laws.specs.TurnLaws.{CommandKeepsLoose, CommandKeepsOrder, CommandKeepsTurn, CommandKeepsValid, CommandLeavesOthers};

/// A command of a player of the match keeps a state valid.
pub fn a_command_keeps_a_state_valid()
    ensures { CommandKeepsValid }
{}

/// It keeps a state loosely valid too.
pub fn a_command_keeps_a_state_loosely_valid()
    ensures { CommandKeepsLoose }
{}

/// A command does not change the turn.
pub fn a_command_is_no_turn()
    ensures { CommandKeepsTurn }
{}

/// The rows that stay keep their order, and new ones come after them.
pub fn a_command_keeps_the_order()
    ensures { CommandKeepsOrder }
{}

/// A row of another owner stays as it is, unless its target left.
pub fn a_command_leaves_others()
    ensures { CommandLeavesOthers }
{}
