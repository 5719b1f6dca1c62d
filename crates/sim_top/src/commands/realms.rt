//! The territories of a turn of a match.

ghost use Rattle.std.specs.Prelude.{Some};
ghost use Rattle.sim_top.specs.{Commands.IsAnswerTo, Commands.shelved, Making.status_made, Returning.RigsCameBack, Stops.AreEight, Words.to_realm};

use super::storing::reached;
use super::{Answer, Equipment, shown};
use crate::inputs::read_match;
use crate::rigs::{put_first, take_first};
use crate::stop::Stop;
use sim_play::realm_text;
use sim_store::Shelf;
use sim_system::{Rig, System};

impl Equipment<'_> {
    /// Tells the territories of a turn of the match of a file.
    pub fn realm<'w, S: Shelf>(
        &mut self,
        shelf: &mut S,
        game: &'w str,
        turn: u32,
    ) -> Result<Answer<'w>, Stop<'w>>
        requires { AreEight ⟦<dyn System as System>⟧ self.old.rigs.items }
        ensures answer { IsAnswerTo (to_realm game.now turn) result (shelved (S.held shelf.old) (S.counts shelf.old))
            (shelved (S.held shelf.new) (S.counts shelf.new)) }
        ensures back { RigsCameBack ⟦<dyn System as System>⟧ (Some (to_realm game.now turn)) (S.held shelf.old) (status_made result) self.old.rigs
            self.new.rigs }
    {
        let setup = read_match(self.alloc, shelf, game)?;
        reached(&setup, turn)?;
        let rig = take_first(&mut self.rigs);
        let (text, rig) = realm_text(self.alloc, &setup, turn, rig, self.orders);
        put_first(&mut self.rigs, rig);
        shown(text)
    }
}
