//! The top call of talks: from the words to how it ended. The match is read before anything is told.

ghost use Rattle.{sim_base.specs.Limits.IsSetup, sim_edge.specs.{Endings.ended_as, Talked.{IsRefusal, IsTalk, OfRelay, ReadsFor, Refused, ShelfCauses}}};
ghost use Rattle.{sim_edge.specs.{Talked.{TalkCauses, TalksOf}, Words.talk_of}, sim_system.specs.{Meanings.HaveKinds, RigWords.systems_of}};
ghost use Rattle.{sim_talk.specs.Talks.Tells, sim_top.specs.Stops.{AreFresh, CausesOf, status_of, stop_text as text_of_stop}};
ghost use Rattle.std.specs.Prelude.{All, IfOk, IfSome, length, vec_capacity, [], ◌≡◌, ◌≤◌};

use crate::asking::Asked;
use crate::ending::Ending;
use sim_base::{Global, Setup};
use sim_live::{live, relay};
use sim_orders::OrderTable;
use sim_store::{Failed, Shelf};
use sim_system::{Rig, System};
use sim_talk::{Talk, TalkFault};
use sim_top::{Status, Stop, read_session_match, stop_text};

/// How a talk ended, and the rigs that it was handed.
#[derive(Drop)]
pub struct Talked {
    pub ending: Ending,
    pub rigs: Vec<Rig>,
}

/// Talks as the words ask, over the match of a file of the shelf. In a session each client has the rig of its number. All eight come
/// back, however it ended.
pub fn converse<S: Shelf, T: Talk>(
    alloc: Global,
    asked: Asked<'_>,
    shelf: &mut S,
    talk: &mut T,
    rigs: Vec<Rig>,
    orders: &OrderTable,
) -> Talked
    requires limits { IsTalk (talk_of asked) }
    requires fresh { AreFresh ⟦<dyn System as System>⟧ rigs.items }
    ensures talks { IfSome (S.held shelf.old) (λ files. TalksOf files (talk_of asked.entry) result.ending (T.history talk.old) (T.history talk.new)) }
    ensures settled { (T.history talk.old).kept ≡ [] → (T.history talk.new).kept ≡ [] }
    ensures relays { OfRelay (talk_of asked.entry) result.ending (T.history talk.old) (T.history talk.new) }
    ensures causes { TalkCauses result.ending (T.history talk.old) (T.history talk.new) }
    ensures shelf { ShelfCauses (talk_of asked.entry) result.ending (S.counts shelf.old) (S.counts shelf.new) }
    ensures held { S.held shelf.new ≡ S.held shelf.old }
    ensures kinds { All (λ r. HaveKinds (systems_of r ⟦<dyn System as System>⟧)) result.rigs.items }
    ensures eight { length result.rigs.items ≡ 8 }
    ensures room { vec_capacity result.rigs ≡ vec_capacity rigs }
{
    match asked {
        Asked::Live { game, clients } => {
            match session_match(alloc, shelf, game, clients) {
                Ok(setup) => {
                    let (outcome, rigs) = live(alloc, &setup, orders, clients, talk, rigs);
                    Talked {
                        ending: ended(outcome),
                        rigs,
                    }
                }
                Err(stop) => Talked {
                    ending: refused(alloc, &stop, talk),
                    rigs,
                },
            }
        }
        Asked::Relay { rules } => Talked {
            ending: ended(relay(alloc, rules, talk)),
            rigs,
        },
    }
}

// The match of a session that begins with so many clients.
fn session_match<'w, S: Shelf>(
    alloc: Global,
    shelf: &mut S,
    game: &'w str,
    clients: u8,
) -> Result<Setup, Stop<'w>>
    ensures tells { IfSome (S.held shelf.old) (λ files. ReadsFor files game.now clients result) }
    ensures limits { IfOk result IsSetup }
    ensures players { IfOk result (λ setup. clients ≤ setup.players) }
    ensures causes { CausesOf result (S.counts shelf.old) (S.counts shelf.new) }
    ensures held { S.held shelf.new ≡ S.held shelf.old }
{
    let setup = read_session_match(alloc, shelf, game)?;
    if clients > setup.players {
        return Err(Stop::ListRefused { index: 0 });
    }
    Ok(setup)
}

// How a talk ended.
fn ended(outcome: Result<(), TalkFault>) -> Ending
    ensures { result ≡ ended_as outcome }
{
    match outcome {
        Ok(()) => Ending::Run {
            status: Status::Done,
        },
        Err(fault) => Ending::from(fault),
    }
}

// Tells why the talk does not begin.
fn refused<T: Talk>(alloc: Global, stop: &Stop<'_>, talk: &mut T) -> Ending
    ensures refused { Refused (status_of stop.now) (text_of_stop stop.now) (T.history talk.old) (T.history talk.new) result }
    ensures ending { IsRefusal stop.now result }
    ensures settled { (T.history talk.old).kept ≡ [] → (T.history talk.new).kept ≡ [] }
{
    let Ok(text) = stop_text(alloc, stop) else {
        return Ending::Run {
            status: Status::OutOfMemory,
        };
    };
    let bytes = text.as_bytes();
    if bytes.is_empty() {
        return Ending::Run {
            status: stop.status(),
        };
    }
    match tell_out(bytes, talk) {
        Ok(()) => Ending::Run {
            status: stop.status(),
        },
        Err(_) => Ending::Untold,
    }
}

// Tells a text, and has it written.
fn tell_out<T: Talk>(text: &[u8], talk: &mut T) -> Result<(), Failed>
    ensures told { Tells result text.now (T.history talk.old) (T.history talk.new) }
    ensures settled { (T.history talk.new).kept ≡ [] }
{
    talk.tell(text)?;
    talk.settle()
}
