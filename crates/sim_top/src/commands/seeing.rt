//! What the players of a match see at a turn, and have explored: from its first state on, or from a stored state on with the
//! explored cells of a file.

ghost use Rattle.sim_top.specs.{Commands.{IsAnswerTo, shelved}, Making.{IsMadeOf, status_made}, Outcome.seen_with, Returning.RigsCameBack, Stops.AreEight};
ghost use Rattle.{sim_top.specs.Words.{to_resight, to_sight}, std.specs.Prelude.{Some, string_bytes}};

use super::storing::reached;
use super::{Answer, Equipment, Saved, shown};
use crate::inputs::{read_match, read_sight, read_state};
use crate::rigs::{put_first, take_first};
use crate::{Status, Stop};
use sim_base::OutOfMemory;
use sim_play::{resight_text, sight_at};
use sim_store::Shelf;
use sim_system::{Rig, System};

impl Equipment<'_> {
    /// Tells what the players see at a turn of the match of a file, and stores what they have explored.
    pub fn sight<'w, S: Shelf>(
        &mut self,
        shelf: &mut S,
        game: &'w str,
        turn: u32,
        out: &'w str,
    ) -> Result<Answer<'w>, Stop<'w>>
        requires { AreEight ⟦<dyn System as System>⟧ self.old.rigs.items }
        ensures answer { IsAnswerTo (to_sight game.now turn out.now) result (shelved (S.held shelf.old) (S.counts shelf.old))
            (shelved (S.held shelf.new) (S.counts shelf.new)) }
        ensures back { RigsCameBack ⟦<dyn System as System>⟧ (Some (to_sight game.now turn out.now)) (S.held shelf.old) (status_made result) self.old.rigs
            self.new.rigs }
    {
        let setup = read_match(self.alloc, shelf, game)?;
        reached(&setup, turn)?;
        let rig = take_first(&mut self.rigs);
        let (told, rig) = sight_at(self.alloc, &setup, turn, rig, self.orders);
        put_first(&mut self.rigs, rig);
        kept_sight(told, out)
    }
}

// The lines of what is seen and the file of what is explored, if there was memory for them.
fn kept_sight<'w>(
    told: Result<(String, Vec<u8>), OutOfMemory>,
    out: &'w str,
) -> Result<Answer<'w>, Stop<'w>>
    ensures { IsMadeOf told (λ told. seen_with (string_bytes told.0) out.now told.1.items) result }
{
    let (text, bytes) = told?;
    Ok(Answer {
        status: Status::Done,
        text,
        saved: Some(Saved { name: out, bytes }),
    })
}

impl Equipment<'_> {
    /// Tells what the players see at the end of the match of a file, from a state that is stored in another on and the explored
    /// cells of a third.
    pub fn resight<'w, S: Shelf>(
        &mut self,
        shelf: &mut S,
        game: &'w str,
        name: &'w str,
        map: &'w str,
    ) -> Result<Answer<'w>, Stop<'w>>
        requires { AreEight ⟦<dyn System as System>⟧ self.old.rigs.items }
        ensures answer { IsAnswerTo (to_resight game.now name.now map.now) result (shelved (S.held shelf.old) (S.counts shelf.old))
            (shelved (S.held shelf.new) (S.counts shelf.new)) }
        ensures back { RigsCameBack ⟦<dyn System as System>⟧ (Some (to_resight game.now name.now map.now)) (S.held shelf.old)
            (status_made result) self.old.rigs self.new.rigs }
    {
        let setup = read_match(self.alloc, shelf, game)?;
        let state = read_state(self.alloc, shelf, &setup, name)?;
        let sight = read_sight(self.alloc, shelf, &setup, &state, map)?;
        let rig = take_first(&mut self.rigs);
        let (text, rig) = resight_text(self.alloc, &setup, state, sight, rig, self.orders);
        put_first(&mut self.rigs, rig);
        shown(text)
    }
}
