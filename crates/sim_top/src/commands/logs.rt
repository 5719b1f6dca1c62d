//! The log of a match, which is stored in a file; and one that is checked, by playing the match as it says.

ghost use Rattle.{sim_replay.specs.Logs.IsOfTurns, sim_top.specs.{Commands.{IsAnswerTo, shelved}, Common.{logged_line, text_of_log}, Making.IsMadeOf}};
ghost use Rattle.sim_top.specs.{Making.status_made, Outcome.{check_by, logged_as}, Returning.RigsCameBack, Stops.AreEight, Words.{to_check, to_log}};
ghost use Rattle.std.specs.Prelude.{IfOk, length, Some, string_bytes, ◌<◌, ◌^◌, ◌≡◌};

use super::{Answer, Equipment, Saved};
use crate::inputs::{read_log, read_match};
use crate::rigs::{put_first, take_first};
use crate::{Status, Stop};
use sim_base::{Global, OutOfMemory, Setup};
use sim_play::{digests_after, match_log};
use sim_replay::{Digests, Log, first_apart, push_log};
use sim_report::{push_agree, push_apart, push_logged};
use sim_store::Shelf;
use sim_system::{Rig, System};

impl Equipment<'_> {
    /// Stores the log of the match of a file.
    pub fn log<'w, S: Shelf>(
        &mut self,
        shelf: &mut S,
        game: &'w str,
        out: &'w str,
    ) -> Result<Answer<'w>, Stop<'w>>
        requires { AreEight ⟦<dyn System as System>⟧ self.old.rigs.items }
        ensures answer { IsAnswerTo (to_log game.now out.now) result (shelved (S.held shelf.old) (S.counts shelf.old))
            (shelved (S.held shelf.new) (S.counts shelf.new)) }
        ensures back { RigsCameBack ⟦<dyn System as System>⟧ (Some (to_log game.now out.now)) (S.held shelf.old) (status_made result) self.old.rigs
            self.new.rigs }
    {
        let setup = read_match(self.alloc, shelf, game)?;
        let rig = take_first(&mut self.rigs);
        let (log, rig) = match_log(self.alloc, &setup, rig, self.orders);
        put_first(&mut self.rigs, rig);
        stored_log(self.alloc, "log", &setup, log, out)
    }
}

/// A log as a file, and its line, which begins with a word; if there was memory for it.
pub fn stored_log<'w>(
    alloc: Global,
    word: &str,
    setup: &Setup,
    log: Result<Log, OutOfMemory>,
    out: &'w str,
) -> Result<Answer<'w>, Stop<'w>>
    requires { IfOk log (IsOfTurns setup.now) }
    ensures { IsMadeOf log (logged_as word.now setup.now out.now) result }
{
    let log = log?;
    let (bytes, text) = written(alloc, word, setup, &log)?;
    Ok(Answer {
        status: Status::Done,
        text,
        saved: Some(Saved { name: out, bytes }),
    })
}

// The text of a log, and the line that is printed of it.
fn written(
    alloc: Global,
    word: &str,
    setup: &Setup,
    log: &Log,
) -> Result<(Vec<u8>, String), OutOfMemory>
    requires { IsOfTurns setup.now log.now }
    ensures bytes { IfOk result (λ made. made.0.items ≡ text_of_log setup.now log.now) }
    ensures text { IfOk result (λ made. string_bytes made.1 ≡ logged_line word.now (length log.now.turns) (length (text_of_log setup.now log.now))) }
{
    let mut bytes = Vec::new(alloc);
    push_log(setup, log, &mut bytes)?;
    let mut text = String::new(alloc);
    push_logged(word, log.turns.as_slice().len(), bytes.len(), &mut text)?;
    Ok((bytes, text))
}

impl Equipment<'_> {
    /// Checks the log of a file, by playing the match of another as it says.
    pub fn check<'w, S: Shelf>(
        &mut self,
        shelf: &mut S,
        game: &'w str,
        name: &'w str,
    ) -> Result<Answer<'w>, Stop<'w>>
        requires { AreEight ⟦<dyn System as System>⟧ self.old.rigs.items }
        ensures answer { IsAnswerTo (to_check game.now name.now) result (shelved (S.held shelf.old) (S.counts shelf.old))
            (shelved (S.held shelf.new) (S.counts shelf.new)) }
        ensures back { RigsCameBack ⟦<dyn System as System>⟧ (Some (to_check game.now name.now)) (S.held shelf.old) (status_made result) self.old.rigs
            self.new.rigs }
    {
        let setup = read_match(self.alloc, shelf, game)?;
        let log = read_log(self.alloc, shelf, &setup, name)?;
        let rig = take_first(&mut self.rigs);
        let (played, rig) = digests_after(
            self.alloc,
            &setup,
            log.turns.as_slice(),
            rig,
            self.orders,
        );
        put_first(&mut self.rigs, rig);
        compared(self.alloc, &log, played)
    }
}

// Whether the digests of a log are those that were played, or the first turn at which they are not, if there was memory for these.
fn compared<'w>(
    alloc: Global,
    log: &Log,
    played: Result<Digests, OutOfMemory>,
) -> Result<Answer<'w>, Stop<'w>>
    requires { length log.now.digests < 2 ^ 32 }
    ensures { IsMadeOf played (check_by log.now) result }
{
    let played = played?;
    let mut text = String::new(alloc);
    let status = match first_apart(log.digests.as_slice(), played.as_slice()) {
        None => {
            push_agree(log.turns.as_slice().len(), &mut text)?;
            Status::Done
        }
        Some(apart) => {
            push_apart(apart.turn, &apart.told, &apart.played, &mut text)?;
            Status::Differs
        }
    };
    Ok(Answer {
        status,
        text,
        saved: None,
    })
}
