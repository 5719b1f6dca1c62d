//! Laws of changes and of the notes that they post.

ghost use Rattle.sim_plans.specs.FactLaws.{ChangeIsNoted, NotesOfAChangeFit, StateIsInRange, UnheardChangesNothing};

/// Where the notes of a change are told in order, a system keeps of the changed state what its kind keeps, and each
/// note fits what it kept before.
pub fn a_change_is_noted()
    ensures facts { ChangeIsNoted }
    ensures fit { NotesOfAChangeFit }
{}

/// A note that does not go to a kind of system would change nothing there.
pub fn what_is_not_heard_changes_nothing()
    ensures { UnheardChangesNothing }
{}

/// What systems are told of a state is in range.
pub fn a_state_is_in_range()
    ensures { StateIsInRange }
{}
