//! A match that is played by an economy, and what its players have in the end.

ghost use Rattle.std.specs.Prelude.{Some};
ghost use Rattle.sim_top.specs.{Commands.IsAnswerTo, Commands.shelved, Making.status_made, Returning.RigsCameBack, Stops.AreEight, Words.to_stock};

use super::{Answer, Equipment, shown};
use crate::inputs::{read_economy, read_match};
use crate::rigs::{put_first, take_first};
use crate::stop::Stop;
use sim_play::stock_text;
use sim_stock::{DeedTable, Market};
use sim_store::Shelf;
use sim_system::{Rig, System};

impl Equipment<'_> {
    /// Plays the match of a file by the economy of another.
    pub fn stock<'w, S: Shelf>(
        &mut self,
        shelf: &mut S,
        game: &'w str,
        name: &'w str,
    ) -> Result<Answer<'w>, Stop<'w>>
        requires { AreEight ⟦<dyn System as System>⟧ self.old.rigs.items }
        ensures answer { IsAnswerTo (to_stock game.now name.now) result (shelved (S.held shelf.old) (S.counts shelf.old))
            (shelved (S.held shelf.new) (S.counts shelf.new)) }
        ensures back { RigsCameBack ⟦<dyn System as System>⟧ (Some (to_stock game.now name.now)) (S.held shelf.old) (status_made result) self.old.rigs
            self.new.rigs }
    {
        let setup = read_match(self.alloc, shelf, game)?;
        let economy = read_economy(self.alloc, shelf, &setup, name)?;
        let rig = take_first(&mut self.rigs);
        let market = Market {
            alloc: self.alloc,
            orders: self.orders,
            deeds: self.deeds,
            economy: &economy,
        };
        let (text, rig) = stock_text(&market, &setup, rig);
        put_first(&mut self.rigs, rig);
        shown(text)
    }
}
