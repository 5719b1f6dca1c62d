//! Who holds a cell, in the words of the rule, as the contract of a function that does nothing.

ghost use Rattle.std.specs.Prelude.{◌≡◌, ℕ, ◌↔◌};
ghost use Rattle.sim_territory.specs.Holders.{holder_by, IsHolder};

/// A cell is held by the player with the greatest influence above 0, the least among equals, and by nobody where no player has
/// influence.
pub fn a_holder_is_first_of_the_greatest()
    ensures { (players : ℕ) (influences : ℕ → ℕ) (number : ℕ) → (holder_by players influences ≡ number) ↔ IsHolder players influences number }
{}
