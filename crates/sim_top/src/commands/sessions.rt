//! What a session makes of its match and its steps: the whole text that it prints, with a rig for each client.

ghost use Rattle.std.specs.Prelude.{Some};
ghost use Rattle.sim_top.specs.{Commands.IsAnswerTo, Commands.shelved, Making.status_made, Returning.RigsCameBack, Stops.AreFresh, Words.to_session};

use super::{Answer, Equipment, shown};
use crate::inputs::read_steps;
use crate::{Stop, read_session_match};
use sim_session::session_text;
use sim_store::Shelf;
use sim_system::{Rig, System};
use std::mem;

impl Equipment<'_> {
    /// Runs a session of the match of a file over the steps of another. The match is read, and refused, before the steps.
    pub fn session<'w, S: Shelf>(
        &mut self,
        shelf: &mut S,
        game: &'w str,
        steps: &'w str,
    ) -> Result<Answer<'w>, Stop<'w>>
        requires { AreFresh ⟦<dyn System as System>⟧ self.old.rigs.items }
        ensures answer { IsAnswerTo (to_session game.now steps.now) result (shelved (S.held shelf.old) (S.counts shelf.old))
            (shelved (S.held shelf.new) (S.counts shelf.new)) }
        ensures back { RigsCameBack ⟦<dyn System as System>⟧ (Some (to_session game.now steps.now)) (S.held shelf.old) (status_made result) self.old.rigs
            self.new.rigs }
    {
        let setup = read_session_match(self.alloc, shelf, game)?;
        let list = read_steps(self.alloc, shelf, steps, setup.players)?;
        let all = mem::replace(&mut self.rigs, Vec::new(self.alloc));
        let (text, back) = session_text(self.alloc, &setup, self.orders, &list, all);
        self.rigs = back;
        shown(text)
    }
}
