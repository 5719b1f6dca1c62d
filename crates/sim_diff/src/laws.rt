//! Theorems about the definition of a difference, each the contract of a function that does nothing.

ghost use Rattle.std.specs.Prelude.{None, Some, ◌↔◌, ◌≡◌};
ghost use Rattle.sim_base.specs.{Limits.IsSetup, Limits.IsValid, Spelling.spelling, declared.setup.Setup.Setup, declared.state.State.State};
ghost use Rattle.sim_diff.specs.{Difference.HaveSameBits, Difference.IsLeastDifference, Difference.difference_of, declared.place.Place.Place};

/// What the definition answers is the least place over every number and every part, and the only one. It answers none
/// exactly where the bytes of every part of every number are the same.
pub fn the_difference_is_least()
    ensures least { (left right : State) (place : Place) → (difference_of left right ≡ Some place) ↔ IsLeastDifference left right place }
    ensures none { (left right : State) → (difference_of left right ≡ None) ↔ HaveSameBits left right }
{}

/// Two states that are valid in one match have no difference exactly where they have one spelling, and exactly where
/// they are the same state.
pub fn no_difference_is_one_spelling()
    ensures spelling { (setup : Setup) (left right : State) → IsSetup setup → IsValid setup left → IsValid setup right → (difference_of left right ≡ None)
        ↔ (spelling setup left ≡ spelling setup right) }
    ensures state { (setup : Setup) (left right : State) → IsSetup setup → IsValid setup left → IsValid setup right → (difference_of left right ≡ None)
        ↔ (left ≡ right) }
{}
