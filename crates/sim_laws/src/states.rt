//! Laws of states: how the two kinds of validity stand to each other, and that a match begins valid.

ghost use Rattle.sim_laws.specs.StateLaws.{FirstStateIsValid, ValidIsLooselyValid};

/// A valid state is loosely valid.
pub fn a_valid_state_is_loosely_valid()
    ensures { ValidIsLooselyValid }
{}

/// The first state of a match within the limits is valid.
pub fn the_first_state_is_valid()
    ensures { FirstStateIsValid }
{}
