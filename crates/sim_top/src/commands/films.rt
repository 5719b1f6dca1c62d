//! The film of a match.

ghost use Rattle.std.specs.Prelude.{Some, ◌≤◌};
ghost use Rattle.sim_top.specs.{Commands.IsAnswerTo, Commands.shelved, Making.status_made, Returning.RigsCameBack, Stops.AreEight, Words.to_film};

use super::{Answer, Equipment, shown};
use crate::inputs::read_match;
use crate::rigs::{put_first, take_first};
use crate::stop::Stop;
use sim_play::film_text;
use sim_store::Shelf;
use sim_system::{Rig, System};

impl Equipment<'_> {
    /// Tells the states of the match of a file, at turns so many apart and at the last.
    pub fn film<'w, S: Shelf>(
        &mut self,
        shelf: &mut S,
        game: &'w str,
        every: u32,
    ) -> Result<Answer<'w>, Stop<'w>>
        requires eight { AreEight ⟦<dyn System as System>⟧ self.old.rigs.items }
        requires every { 1 ≤ every }
        ensures answer { IsAnswerTo (to_film game.now every) result (shelved (S.held shelf.old) (S.counts shelf.old))
            (shelved (S.held shelf.new) (S.counts shelf.new)) }
        ensures back { RigsCameBack ⟦<dyn System as System>⟧ (Some (to_film game.now every)) (S.held shelf.old) (status_made result) self.old.rigs
            self.new.rigs }
    {
        let setup = read_match(self.alloc, shelf, game)?;
        let rig = take_first(&mut self.rigs);
        let (text, rig) = film_text(self.alloc, &setup, every, rig, self.orders);
        put_first(&mut self.rigs, rig);
        shown(text)
    }
}
