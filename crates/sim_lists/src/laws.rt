//! What the number of a refusal says: the items before it are read, and it is not. Each function does nothing; its
//! contract is the law.

ghost use Rattle.sim_lists.specs.StepLists.{ArrivalIndexIsLeast, StepIndexIsLeast};

/// The number of an arrival that is refused is the least.
pub fn arrival_index_is_least()
    ensures { ArrivalIndexIsLeast }
{}

/// The number of a step that is refused is the least.
pub fn step_index_is_least()
    ensures { StepIndexIsLeast }
{}
