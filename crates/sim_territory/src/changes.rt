//! What a shift is about, and what it does to one number. They stand apart from the tables, whose file can't name what is said
//! of them.

ghost use Rattle.std.specs.Prelude.{◌≡◌};
ghost use Rattle.sim_territory.specs.Tables.{mark_in as mark_in_shift, MayMove, Moves};

use sim_trail::{Mark, Shift};

/// The mark that comes or goes.
pub fn mark_in(shift: &Shift) -> Mark
    ensures { result ≡ mark_in_shift shift.now }
{
    match *shift {
        Shift::Gone { mark } => mark,
        Shift::Born { mark } => mark,
    }
}

/// So much more, or less.
pub fn moved(before: u32, by: u32, more: bool) -> u32
    requires { MayMove more by before }
    ensures { Moves more by before result }
{
    if more { before + by } else { before - by }
}
