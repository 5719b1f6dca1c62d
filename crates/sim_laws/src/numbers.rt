//! Laws of numbers.

ghost use Rattle.sim_laws.specs.NumberLaws.{RootIsGreatest, RootIsUnique};

/// The root is the greatest number whose square is within the number.
pub fn the_root_is_greatest()
    ensures { RootIsGreatest }
{}

/// There is one root.
pub fn the_root_is_unique()
    ensures { RootIsUnique }
{}
