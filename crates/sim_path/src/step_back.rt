//! A step back. It stands apart from the calls that try one, whose contracts speak of it.

ghost use Rattle.std.specs.Prelude.{◌<◌};
ghost use Rattle.{sim_base.specs.Places.IsOnGround, sim_grid.specs.Grids.field_of_grid, sim_search.specs.Moves.AreMoves};

use crate::question::Question;
use crate::reached::Reached;
use sim_base::Cell;
use sim_search::step;

/// A step back that is tried: from a cell that a walk back has come to, where these steps are allowed, in one direction.
#[derive(Clone, Copy)]
pub struct StepBack<'a> {
    pub question: &'a Question<'a>,
    pub at: Reached,
    pub moves: u8,
    pub which: u8,
    ghost on: { IsOnGround question.now.grid.now.size at.cell },
    ghost right: { AreMoves (field_of_grid question.now.grid.now) question.now.start at.cell moves },
    ghost which_in: { which < 8 },
}

impl<'a> StepBack<'a> {
    ghost use Rattle.std.specs.Prelude.{◌≡◌};
    ghost use Rattle.{sim_path.specs.Questions.field_behind, sim_search.specs.Moves.step_to};

    /// The cell from which the step comes, if it is allowed.
    #[inline(always)]
    pub fn step(&self) -> Option<Cell>
        ensures { result ≡ step_to (field_behind self.now) self.now.question.now.start self.now.at.cell self.now.which }
    {
        let question = self.question;
        step(
            question.grid,
            question.start,
            self.at.cell,
            self.moves,
            self.which,
        )
    }
}
