//! The top call: from the words to a status. All files are read and the whole text is made before anything is written,
//! so that a refusal or want of memory leaves the sink and the files as they were.

ghost use Rattle.{sim_store.specs.Reading.FileCauses, sim_top.specs.Commands.{IsPrepared, shelved}};
ghost use Rattle.sim_top.specs.{Common.{Appends, Counts as AllCounts, File, usage_text as text_of_usage}, Headline.{Balances, Film, Headline, OfFilm, OfParts}};
ghost use Rattle.sim_top.specs.{Headline.{OfRealm, OfStock, PartsTold, TellsLogs, TellsSights, Territories}, Making.{file_of, IsAnswered, IsSavedAs}};
ghost use Rattle.sim_top.specs.{Making.{IsSettled, MeetsBefore, SaveMeets, SavesIfDone, Tells}, Outcome.OfSession, Reads.{Causes, CountsBefore, GaveForWords}};
ghost use Rattle.sim_top.specs.Reads.{HasEnded, IsFaultless, IsFinal, IsReady, IsSilent, IsUnfound, IsUsageTold, KeepsAllBut, LacksMatch, MayEnd, Meets, scene};
ghost use Rattle.sim_top.specs.{Returning.RigsCameBack, Stops.{AreFresh, status_of, stop_text as text_of_stop}, Words.{Asked, asked_by, out_of, words_of}};
ghost use Rattle.std.specs.Prelude.{IfOk, IfSome, IsOk, List, None, Option, option_map, Some, string_bytes, ℕ, [], ◌≡◌, ◌≢◌};

use crate::commands::{Answer, Equipment, Saved};
use crate::words::request_of;
use crate::{Status, Stop};
use sim_base::{Global, OutOfMemory};
use sim_orders::OrderTable;
use sim_report::{Refusal, push_refusal, push_usage};
use sim_stock::DeedTable;
use sim_store::{Shelf, Sink, StoreFault, write_file, write_out};
use sim_system::{Rig, System};

/// How a run ended, and the rigs that it was handed.
#[derive(Drop)]
pub struct Ended {
    pub status: Status,
    pub rigs: Vec<Rig>,
}

/// Does what the words say, over the files of the shelf, and writes its text to the sink. A match is played with the first
/// of eight cleared rigs, and by a client that joins it with the second; in a session each client has the rig of its number.
/// All eight come back with every status, in the room and in the order in which they came.
pub fn run<S: Shelf, K: Sink>(
    alloc: Global,
    words: &[String],
    shelf: &mut S,
    out: &mut K,
    rigs: Vec<Rig>,
    orders: &OrderTable,
    deeds: &DeedTable,
) -> Ended
    requires { AreFresh ⟦<dyn System as System>⟧ rigs.items }

    // What this program is for: where a session is asked for, what the sink was told of it is what the headline says of its match
    // and its steps.
    ensures headline { IfSome (S.held shelf.old) (λ files. HasEnded result.status
        → OfSession files (asked_by (words_of words.now)) (λ setup list. Headline setup list (K.told out.old) (K.told out.new))) }

    // Where territories are asked for, what the sink was told is who holds which ground at that turn, and which of it is rooted.
    ensures territories { IfSome (S.held shelf.old) (λ files. HasEnded result.status
        → OfRealm files (asked_by (words_of words.now)) (λ setup turn. Territories setup turn (K.told out.old) (K.told out.new))) }

    // Where a film is asked for, what the sink was told is the states after the match's own turns, so many turns apart, and the last.
    ensures films { IfSome (S.held shelf.old) (λ files. HasEnded result.status
        → OfFilm files (asked_by (words_of words.now)) (λ setup every. Film setup every (K.told out.old) (K.told out.new))) }

    // Where the templates are asked for, what the sink was told is the parts of each.
    ensures parts { IfSome (S.held shelf.old) (λ files. HasEnded result.status
        → OfParts files (asked_by (words_of words.now)) (λ setup. PartsTold setup (K.told out.old) (K.told out.new))) }

    // Where it is asked what the players see, what the sink was told is which cells a row of theirs sees in the last state, and which
    // were explored on the way to it; and a file of the latter is saved where one is asked for.
    ensures sights { IfSome (S.held shelf.old) (λ files. HasEnded result.status → TellsSights files (asked_by (words_of words.now))
        (scene (S.held shelf.old) (K.told out.old) (S.counts shelf.old) (K.faults out.old))
        (scene (S.held shelf.new) (K.told out.new) (S.counts shelf.new) (K.faults out.new))) }

    // Where a match is played by an economy, what the sink was told is the state after each turn, without the commands that their
    // players could not pay, and the exact balance of each player.
    ensures stocks { IfSome (S.held shelf.old) (λ files. HasEnded result.status
        → OfStock files (asked_by (words_of words.now)) (λ setup economy. Balances setup economy (K.told out.old) (K.told out.new))) }

    // Where a log is asked for, of a match or of a session, what is stored is the log of its turns; and a log that is checked is said to
    // agree exactly where each of its digests is that of the state after its own commands, or else the first turn at which one is not.
    ensures logs { IfSome (S.held shelf.old) (λ files. HasEnded result.status → TellsLogs files (asked_by (words_of words.now)) result.status
        (scene (S.held shelf.old) (K.told out.old) (S.counts shelf.old) (K.faults out.old))
        (scene (S.held shelf.new) (K.told out.new) (S.counts shelf.new) (K.faults out.new))) }

    // Where the shelf tells its files, the status, the text and the saved file are those of the words, or a fault or
    // want of memory came between.
    ensures answers { IfSome (S.held shelf.old) (λ files. Meets result.status (words_of words.now) files
        (scene (S.held shelf.old) (K.told out.old) (S.counts shelf.old) (K.faults out.old))
        (scene (S.held shelf.new) (K.told out.new) (S.counts shelf.new) (K.faults out.new))) }
    // Where each file that is read is good and no fault is counted, the command comes to its end, or there is no memory.
    ensures complete { IfSome (S.held shelf.old) (λ files. IsReady files (asked_by (words_of words.now))
        → IsFaultless (scene (S.held shelf.old) (K.told out.old) (S.counts shelf.old) (K.faults out.old))
        (scene (S.held shelf.new) (K.told out.new) (S.counts shelf.new) (K.faults out.new))
        → IsFinal result.status) }
    // Just the bytes of the files that were read were given, each once, also where the last of them is refused.
    ensures given { (files : List File) → S.held shelf.old ≡ Some files
        → GaveForWords files (asked_by (words_of words.now)) result.status (S.counts shelf.old) (S.counts shelf.new) }
    // A match that is not there is found missing, whatever memory there is.
    ensures missing { (files : List File) → S.held shelf.old ≡ Some files → LacksMatch files (asked_by (words_of words.now)) → IsUnfound result.status }

    // Where the shelf tells nothing, this much of it is still known.
    ensures statuses { MayEnd (asked_by (words_of words.now)) result.status }
    ensures unasked { asked_by (words_of words.now) ≡ None → IsUsageTold text_of_usage result.status (K.told out.old) (K.told out.new)
        × (S.counts shelf.new ≡ S.counts shelf.old) }
    ensures silent { IsSilent result.status → Appends (K.told out.old) (K.told out.new) [] }

    // A fault is answered exactly where one was counted, and no file but the one to be written changes.
    ensures causes { Causes result.status
        (scene (S.held shelf.old) (K.told out.old) (S.counts shelf.old) (K.faults out.old))
        (scene (S.held shelf.new) (K.told out.new) (S.counts shelf.new) (K.faults out.new)) }
    ensures unsaved { out_of (asked_by (words_of words.now)) ≡ None → (S.counts shelf.new).write_faults ≡ (S.counts shelf.old).write_faults }
    ensures others { KeepsAllBut (out_of (asked_by (words_of words.now))) (S.held shelf.old) (S.held shelf.new) }

    // All rigs come back, with every status: what those that were used stand for in the end, how often each was built, and that
    // all others are as they were.
    ensures back { RigsCameBack ⟦<dyn System as System>⟧ (asked_by (words_of words.now)) (S.held shelf.old) result.status rigs result.rigs }
{
    let mut equipment = Equipment {
        alloc,
        rigs,
        orders,
        deeds,
    };
    let answer = made_answer(words, shelf, &mut equipment);
    let status = finish(shelf, out, &answer);
    let Equipment { rigs, .. } = equipment;
    Ended { status, rigs }
}

// Writes what was made: the file that is to be saved, and then the text.
fn finish<S: Shelf, K: Sink>(shelf: &mut S, out: &mut K, answer: &Answer<'_>) -> Status
    requires unwritten { answer.now.status ≢ Status.WriteFault }
    requires done { SavesIfDone answer.now.saved answer.now.status }
    requires silent { IsSilent answer.now.status → string_bytes answer.now.text ≡ [] }
    ensures answers { (words : List (List ℕ)) (before : AllCounts) → CountsBefore answer.now.status before (S.counts shelf.old)
        → IfSome (S.held shelf.old) (λ files. MeetsBefore answer.now.status words files (string_bytes answer.now.text) (option_map file_of answer.now.saved)
        → Meets result words files (scene (S.held shelf.old) (K.told out.old) before (K.faults out.old))
        (scene (S.held shelf.new) (K.told out.new) (S.counts shelf.new) (K.faults out.new))) }
    ensures told { answer.now.saved ≡ None → Tells result answer.now.status (string_bytes answer.now.text) (K.told out.old) (K.told out.new) (K.faults out.old)
        (K.faults out.new) }
    ensures statuses { (asked : Option Asked) → MayEnd asked answer.now.status → MayEnd asked result }
    ensures settled { IsSettled result → (result ≡ answer.now.status) × (S.counts shelf.new ≡ S.counts shelf.old) }
    ensures silent { IsSilent result → Appends (K.told out.old) (K.told out.new) [] }
    ensures causes { (before : AllCounts) → CountsBefore answer.now.status before (S.counts shelf.old)
        → Causes result (scene (S.held shelf.old) (K.told out.old) before (K.faults out.old))
        (scene (S.held shelf.new) (K.told out.new) (S.counts shelf.new) (K.faults out.new)) }
    ensures unsaved { answer.now.saved ≡ None → S.counts shelf.new ≡ S.counts shelf.old }
    ensures others { (name : Option (List ℕ)) → IsSavedAs name answer.now.saved → KeepsAllBut name (S.held shelf.old) (S.held shelf.new) }
{
    match save(shelf, &answer.saved) {
        Ok(()) => tell(out, answer.status, answer.text.as_str()),
        Err(StoreFault::OutOfMemory) => Status::OutOfMemory,
        Err(_) => Status::WriteFault,
    }
}

// Writes the text, and answers the status that it has where that succeeds.
fn tell<K: Sink>(out: &mut K, status: Status, text: &str) -> Status
    ensures { Tells result status text.now (K.told out.old) (K.told out.new) (K.faults out.old) (K.faults out.new) }
{
    match write_out(out, text.as_bytes()) {
        Ok(()) => status,
        Err(_) => Status::WriteFault,
    }
}

// Writes the file that is to be saved, if there is one.
fn save<S: Shelf>(shelf: &mut S, saved: &Option<Saved<'_>>) -> Result<(), StoreFault>
    ensures held { SaveMeets result (option_map file_of saved.now) (S.held shelf.old) (S.held shelf.new) }
    ensures causes { FileCauses result (S.counts shelf.old) (S.counts shelf.new) }
{
    match saved {
        None => Ok(()),
        Some(saved) => write_file(shelf, saved.name, &saved.bytes),
    }
}

// The status, the text and the file that the words come to.
fn made_answer<'w, S: Shelf>(
    words: &'w [String],
    shelf: &mut S,
    equipment: &mut Equipment<'_>,
) -> Answer<'w>
    requires { AreFresh ⟦<dyn System as System>⟧ equipment.old.rigs.items }
    ensures answer { IsPrepared (words_of words.now) result.status (string_bytes result.text) result.saved (shelved (S.held shelf.old) (S.counts shelf.old))
        (shelved (S.held shelf.new) (S.counts shelf.new)) }
    ensures back { RigsCameBack ⟦<dyn System as System>⟧ (asked_by (words_of words.now)) (S.held shelf.old) result.status equipment.old.rigs
        equipment.new.rigs }
{
    let Some(request) = request_of(words) else {
        return answered(equipment.alloc, Status::Usage, usage_text(equipment.alloc));
    };
    match equipment.answer_to(request, shelf) {
        Ok(answer) => answer,
        Err(stop) => answered(
            equipment.alloc,
            stop.status(),
            stop_text(equipment.alloc, &stop),
        ),
    }
}

// The text with its status, or want of memory.
fn answered<'w>(alloc: Global, status: Status, text: Result<String, OutOfMemory>) -> Answer<'w>
    ensures answer { IsAnswered result.status (string_bytes result.text) status text }
    ensures saved { result.saved ≡ None }
{
    match text {
        Ok(text) => Answer {
            status,
            text,
            saved: None,
        },
        Err(_) => Answer {
            status: Status::OutOfMemory,
            text: String::new(alloc),
            saved: None,
        },
    }
}

fn usage_text(alloc: Global) -> Result<String, OutOfMemory>
    ensures { IfOk result (λ text. string_bytes text ≡ text_of_usage) }
{
    let mut text = String::new(alloc);
    push_usage(&mut text)?;
    Ok(text)
}

/// The line that says why a command ended, or nothing where a fault or want of memory did.
pub fn stop_text(alloc: Global, stop: &Stop<'_>) -> Result<String, OutOfMemory>
    ensures text { IfOk result (λ text. string_bytes text ≡ text_of_stop stop.now) }
    ensures silent { IsSilent (status_of stop.now) → IsOk result }
{
    let refusal = match *stop {
        Stop::MatchRefused { code, index } => Refusal::Match { code, index },
        Stop::StateRefused { code, name } => Refusal::Stored { code, name },
        Stop::ListRefused { index } => Refusal::List { index },
        Stop::NoSuchTurn { asked, turns } => Refusal::Turn { asked, turns },
        Stop::SightRefused { code } => Refusal::Sight { code },
        Stop::LogRefused { line } => Refusal::Log { line },
        Stop::EconomyRefused { index } => Refusal::Economy { index },
        Stop::ReadFault | Stop::TooLong | Stop::NoFile | Stop::OutOfMemory => {
            return Ok(String::new(alloc));
        }
    };
    let mut text = String::new(alloc);
    push_refusal(&refusal, &mut text)?;
    Ok(text)
}
