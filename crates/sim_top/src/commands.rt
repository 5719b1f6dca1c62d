//! What each command makes of its files: the whole text that it prints, and the bytes of the file that it saves. Nothing
//! is written here. Each command that plays takes the rigs that it uses out of the equipment, and puts them back.

ghost use Rattle.sim_top.specs.{Commands.{IsAnswerTo, shelved}, Making.{IsMadeOf, status_made}, Outcome.printed as printed_as, Returning.RigsCameBack};
ghost use Rattle.{sim_top.specs.{Stops.AreFresh, Trials.CanBeTried, Words.asked}, std.specs.Prelude.{Some, string_bytes}};

mod comparing;
mod films;
mod joining;
mod logs;
mod parts;
mod playing;
mod realms;
mod recording;
mod seeing;
mod serving;
mod sessions;
mod showing;
mod stocks;
mod storing;
mod trials;

use crate::words::Request;
use crate::{Status, Stop};
use comparing::compare;
use parts::parts;
use serving::serve;
use showing::show;
use sim_base::{Global, OutOfMemory};
use sim_orders::OrderTable;
use sim_stock::DeedTable;
use sim_store::Shelf;
use sim_system::{Rig, System};

/// A file that is to be written.
#[derive(Drop)]
pub struct Saved<'w> {
    pub name: &'w str,
    pub bytes: Vec<u8>,
}

/// What a run is to write: a text, and perhaps a file before it.
#[derive(Drop)]
pub struct Answer<'w> {
    pub status: Status,
    pub text: String,
    pub saved: Option<Saved<'w>>,
}

/// What a run is handed beside its words and its files: memory, the eight rigs, the handlers of orders and those of deeds. Its methods are
/// the commands that play.
#[derive(Drop)]
pub struct Equipment<'a> {
    pub alloc: Global,
    pub rigs: Vec<Rig>,
    pub orders: &'a OrderTable,
    pub deeds: &'a DeedTable,
}

impl Equipment<'_> {
    /// What the request comes to, or why it ends before.
    pub fn answer_to<'w, S: Shelf>(
        &mut self,
        request: Request<'w>,
        shelf: &mut S,
    ) -> Result<Answer<'w>, Stop<'w>>
        requires fresh { AreFresh ⟦<dyn System as System>⟧ self.old.rigs.items }
        requires trial { CanBeTried (asked request) }
        ensures answer { IsAnswerTo (asked request.entry) result (shelved (S.held shelf.old) (S.counts shelf.old))
            (shelved (S.held shelf.new) (S.counts shelf.new)) }
        ensures back { RigsCameBack ⟦<dyn System as System>⟧ (Some (asked request.entry)) (S.held shelf.old) (status_made result) self.old.rigs self.new.rigs }
    {
        match request {
            Request::Play { game } => self.play(shelf, game),
            Request::State { game, turn, out } => self.store(shelf, game, turn, out),
            Request::Resume { game, stored } => self.resume(shelf, game, stored),
            Request::Rejoin { game, turn } => self.rejoin(shelf, game, turn),
            Request::Session { game, steps } => self.session(shelf, game, steps),
            Request::Show { game, stored } => show(self.alloc, shelf, game, stored),
            Request::Compare { game, left, right } => compare(self.alloc, shelf, game, left, right),
            Request::Serve { schedule } => serve(self.alloc, shelf, schedule),
            Request::Trial { seed, units, turns } => self.trial((seed, units, turns)),
            Request::Stock { game, economy } => self.stock(shelf, game, economy),
            Request::Realm { game, turn } => self.realm(shelf, game, turn),
            Request::Sight { game, turn, out } => self.sight(shelf, game, turn, out),
            Request::Resight { game, stored, map } => self.resight(shelf, game, stored, map),
            Request::Log { game, out } => self.log(shelf, game, out),
            Request::Record { game, steps, out } => self.record(shelf, game, steps, out),
            Request::Check { game, log } => self.check(shelf, game, log),
            Request::Film { game, every } => self.film(shelf, game, every),
            Request::Parts { game } => parts(self.alloc, shelf, game),
        }
    }
}

/// A text alone, if there was memory for it.
fn shown<'w>(text: Result<String, OutOfMemory>) -> Result<Answer<'w>, Stop<'w>>
    ensures { IsMadeOf text (λ text. printed_as Status.Done (string_bytes text)) result }
{
    Ok(Answer {
        status: Status::Done,
        text: text?,
        saved: None,
    })
}
