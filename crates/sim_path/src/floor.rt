//! What walks from a start cost at least. It stands apart from what tells it, since the ways back that are found by it read no more.

ghost use Rattle.{sim_base.specs.{declared.place.Cell.Cell, Places.Field}, sim_path.specs.Questions.{field_in, IsFirstTight, IsFloor, marked_in, MayDescend}};
ghost use Rattle.std.specs.Prelude.{IsTrue, ℕ, ◌↔◌, ◌≡◌};

use crate::marks::Marks;
use crate::question::Question;
use sim_base::Cell;

/// What walks from a start cost at least. A walk back is handed one by which no walk costs less.
pub trait Floor: Copy {
    /// The floor of each cell, by the start.
    ghost floor_of: { Self → Cell → Cell → ℕ };

    /// What is known of it on a ground, for a start.
    ghost holds: { Field → Cell → Self → Type 0 };

    /// What a walk from the start to a cell costs at least.
    fn floor(self, start: Cell, cell: Cell) -> u32
        ensures { result ≡ floor_of self start cell };

    /// Whether the floor of a cell is this cost. As little is read as will do.
    fn is_floor(self, start: Cell, cell: Cell, cost: u32) -> bool
        ensures { IsTrue result ↔ floor_of self start cell ≡ cost };

    /// No walk costs less.
    ghost is_least: { (field : Field) (start : Cell) (floor : Self) → holds field start floor → IsFloor field start (floor_of floor start) };
}

/// A floor over which a walk goes back.
pub trait Descent: Floor {
    /// How many steps back from an end are tried, those into dead ends too.
    fn tries(self, start: Cell, end: Cell) -> u32;

    /// The first cell in the order of the directions from which a step makes up the floor of this one, but for the dead ones.
    fn first_tight(self, question: &Question<'_>, at: Cell, dead: &Marks) -> Option<Cell>
        requires { MayDescend Self.holds question.now self at }
        ensures { IsFirstTight (field_in question.now) question.now.start (Self.floor_of self question.now.start) (marked_in dead.now) at 8 result };
}
