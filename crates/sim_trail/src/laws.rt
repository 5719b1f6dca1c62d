//! The law of sums over marks, as the contract of a function that does nothing.

ghost use Rattle.{sim_trail.specs.{declared.mark.Mark.Mark, Shifts.{IsAscending, shifts_between, SumFollows}}, std.specs.Prelude.{List, ℕ}};

/// Whatever the weights of marks are, their sum over the new marks is that over the old ones, less the weights of those that
/// are gone and with those that are born.
pub fn sums_follow_the_shifts()
    ensures { (weight : Mark → ℕ) (old new : List Mark) → IsAscending old → IsAscending new → SumFollows weight old new (shifts_between old new) }
{}
