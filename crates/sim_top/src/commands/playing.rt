//! A match that is played from its start, or from a stored state on.

ghost use Rattle.sim_top.specs.{Commands.{IsAnswerTo, shelved}, Making.status_made, Returning.RigsCameBack, Stops.AreEight, Words.{to_play, to_resume}};
ghost use Rattle.std.specs.Prelude.{Some};

use super::{Answer, Equipment, shown};
use crate::inputs::{read_match, read_state};
use crate::rigs::{put_first, take_first};
use crate::stop::Stop;
use sim_play::{play_text, resume_text};
use sim_store::Shelf;
use sim_system::{Rig, System};

impl Equipment<'_> {
    /// Plays the match of a file from its start.
    pub fn play<'w, S: Shelf>(
        &mut self,
        shelf: &mut S,
        game: &'w str,
    ) -> Result<Answer<'w>, Stop<'w>>
        requires { AreEight ⟦<dyn System as System>⟧ self.old.rigs.items }
        ensures answer { IsAnswerTo (to_play game.now) result (shelved (S.held shelf.old) (S.counts shelf.old))
            (shelved (S.held shelf.new) (S.counts shelf.new)) }
        ensures back { RigsCameBack ⟦<dyn System as System>⟧ (Some (to_play game.now)) (S.held shelf.old) (status_made result) self.old.rigs self.new.rigs }
    {
        let setup = read_match(self.alloc, shelf, game)?;
        let rig = take_first(&mut self.rigs);
        let (text, rig) = play_text(self.alloc, &setup, rig, self.orders);
        put_first(&mut self.rigs, rig);
        shown(text)
    }

    /// Plays the match of a file on from a state that is stored in another.
    pub fn resume<'w, S: Shelf>(
        &mut self,
        shelf: &mut S,
        game: &'w str,
        name: &'w str,
    ) -> Result<Answer<'w>, Stop<'w>>
        requires { AreEight ⟦<dyn System as System>⟧ self.old.rigs.items }
        ensures answer { IsAnswerTo (to_resume game.now name.now) result (shelved (S.held shelf.old) (S.counts shelf.old))
            (shelved (S.held shelf.new) (S.counts shelf.new)) }
        ensures back { RigsCameBack ⟦<dyn System as System>⟧ (Some (to_resume game.now name.now)) (S.held shelf.old) (status_made result) self.old.rigs
            self.new.rigs }
    {
        let setup = read_match(self.alloc, shelf, game)?;
        let state = read_state(self.alloc, shelf, &setup, name)?;
        let rig = take_first(&mut self.rigs);
        let (text, rig) = resume_text(self.alloc, &setup, state, rig, self.orders);
        put_first(&mut self.rigs, rig);
        shown(text)
    }
}
