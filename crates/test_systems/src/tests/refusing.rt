//! Systems that find no memory for one sort of note or ask. A run that keeps its systems beside what it plays, and does not
//! tell or ask them, would not notice.

ghost use Rattle.{sim_client.specs.StageWords.AreCleared, sim_system.specs.{Meanings.{HaveKinds, NeedsNoMemory}, RigWords.systems_of}};
ghost use Rattle.std.specs.Prelude.{All, IsTrue, length, ◌≡◌};

use sim_base::{Global, Land, OutOfMemory};
use sim_census::Census;
use sim_ground::Ground;
use sim_range::Range;
use sim_store::{MemShelf, MemSink};
use sim_system::{Answer, Ask, Fact, Kind, Note, Rig, System};
use sim_top::Status;
use sim_watch::Watch;
use std::test::Fail;
use test_runs::games::{GUARDS, HUTS_LEFT, STEP, TRAINING};
use test_runs::{add_rig, rig_of, run_with, words_of};

/// A sort of note or ask.
#[derive(Clone, Copy)]
enum Sort {
    Born,
    Moved,
    Owned,
    Aimed,
    Way,
    Spot,
    Seen,
    Watchers,
}

/// What is refused: a sort, by the system of a kind in one of the rigs, of which the first is 1.
type Refusal = (usize, Kind, Sort);

// What this system of this rig refuses, if anything.
fn refused(refusal: Refusal, rig: usize, kind: Kind) -> Option<Sort> {
    if refusal.0 == rig && refusal.1 == kind {
        Some(refusal.2)
    } else {
        None
    }
}

fn is_noted(sort: Option<Sort>, note: &Note) -> bool {
    match (sort, note) {
        (Some(Sort::Born), Note::Born { .. })
        | (Some(Sort::Moved), Note::Moved { .. })
        | (Some(Sort::Owned), Note::Owned { .. })
        | (Some(Sort::Aimed), Note::Aimed { .. }) => true,
        _ => false,
    }
}

fn is_asked(sort: Option<Sort>, ask: &Ask) -> bool
    ensures { IsTrue result → NeedsNoMemory ask.now → ⊥ }
{
    match (sort, ask) {
        (Some(Sort::Way), Ask::Way { .. })
        | (Some(Sort::Spot), Ask::Spot { .. })
        | (Some(Sort::Seen), Ask::Seen { .. })
        | (Some(Sort::Watchers), Ask::Watchers { .. }) => true,
        _ => false,
    }
}

/// A system that refuses a sort, if any, and is otherwise the one that it has.
#[derive(Drop)]
struct Refusing<S: System> {
    system: S,
    sort: Option<Sort>,
}

impl<S: System> Refusing<S> {
    fn new(system: S, sort: Option<Sort>) -> Refusing<S>
        ensures { ⟦<Refusing<S> as System>⟧.meaning result ≡ S.meaning system }
    {
        Refusing { system, sort }
    }
}

impl<S: System> System for Refusing<S> {
    ghost meaning = { λ refusing. S.meaning refusing.system };

    fn kind(&self) -> Kind {
        self.system.kind()
    }

    fn clear(&mut self) {
        self.system.clear();
    }

    fn rebuild(&mut self, land: &Land, facts: &[Fact]) -> Result<(), OutOfMemory> {
        self.system.rebuild(land, facts)
    }

    fn on(&mut self, note: &Note) -> Result<(), OutOfMemory> {
        if is_noted(self.sort, note) {
            return Err(OutOfMemory);
        }
        self.system.on(note)
    }

    fn ask(&self, ask: &Ask) -> Result<Answer, OutOfMemory> {
        if is_asked(self.sort, ask) {
            return Err(OutOfMemory);
        }
        self.system.ask(ask)
    }

    fn rebuilds(&self) -> u64 {
        self.system.rebuilds()
    }
}

/// Files by their names.
type Files = &'static [(&'static str, &'static str)];

// Runs the words with rigs that refuse, and says besides whether anything was printed or stored.
fn run_refused(
    alloc: Global,
    words: &[&str],
    files: &[(&str, &str)],
    refusal: Refusal,
) -> Result<(Status, bool), OutOfMemory> {
    let mut rigs = Vec::with_capacity(alloc, 8)?;
    for _ in 0..8u8 {
        let number = rigs.len() + 1;
        let rig = rig_of!(
            alloc;
            Refusing::new(Ground::new(alloc), refused(refusal, number, Kind::Ground)),
            Refusing::new(Range::looking(alloc), refused(refusal, number, Kind::Range)),
            Refusing::new(Watch::new(alloc), refused(refusal, number, Kind::Watch)),
            Refusing::new(Census::new(alloc), refused(refusal, number, Kind::Census))
        );
        add_rig(&mut rigs, rig)?;
    }
    run_on(alloc, words, files, rigs)
}

// Runs the words on these rigs.
fn run_on(
    alloc: Global,
    words: &[&str],
    files: &[(&str, &str)],
    rigs: Vec<Rig>,
) -> Result<(Status, bool), OutOfMemory>
    requires eight { length rigs.items ≡ 8 }
    requires kinds { All (λ r. HaveKinds (systems_of r ⟦<dyn System as System>⟧)) rigs.items }
    requires cleared { All (λ r. AreCleared (systems_of r ⟦<dyn System as System>⟧)) rigs.items }
{
    let words = words_of(alloc, words)?;
    let mut shelf = shelf_with(alloc, files)?;
    let mut out = MemSink::new(alloc, 1000)?;
    let status = run_with(alloc, &words, &mut shelf, &mut out, rigs)?;
    Ok((status, is_told(&out, &shelf, "s")))
}

fn shelf_with(alloc: Global, files: &[(&str, &str)]) -> Result<MemShelf, OutOfMemory> {
    let mut shelf = MemShelf::new(alloc, 1000)?;
    for (name, file) in files {
        shelf.put(name, file.as_bytes())?;
    }
    Ok(shelf)
}

fn is_told(out: &MemSink, shelf: &MemShelf, name: &str) -> bool {
    !out.told().is_empty() || shelf.held(name).is_some()
}

/// Words, the files, what is refused, and how the run ends.
type Case = (&'static [&'static str], Files, Refusal, Status);

const STATE: &[&str] = &["state", "m", "1", "s"];

const JOIN: &[&str] = &["rejoin", "m", "0"];

const SESSION: &[&str] = &["session", "m", "l"];

// The first of two clients plays a turn.
const FIRST_PLAYS: &str = r#"{"clients":2,"steps":[["play",1]]}"#;

// Each of them plays a turn.
const BOTH_PLAY: &str = r#"{"clients":2,"steps":[["play",1],["play",2]]}"#;

// What each system is told or asked, and a match in which that happens; and what no run has to do with.
static CASES: [Case; 15] = [
    (
        STATE,
        &[("m", STEP)],
        (1, Kind::Range, Sort::Moved),
        Status::OutOfMemory,
    ),
    (
        STATE,
        &[("m", STEP)],
        (1, Kind::Ground, Sort::Way),
        Status::OutOfMemory,
    ),
    (
        STATE,
        &[("m", GUARDS)],
        (1, Kind::Range, Sort::Seen),
        Status::OutOfMemory,
    ),
    (
        STATE,
        &[("m", GUARDS)],
        (1, Kind::Watch, Sort::Aimed),
        Status::OutOfMemory,
    ),
    (
        STATE,
        &[("m", GUARDS)],
        (1, Kind::Watch, Sort::Watchers),
        Status::OutOfMemory,
    ),
    (
        STATE,
        &[("m", TRAINING)],
        (1, Kind::Ground, Sort::Spot),
        Status::OutOfMemory,
    ),
    (
        STATE,
        &[("m", TRAINING)],
        (1, Kind::Census, Sort::Born),
        Status::OutOfMemory,
    ),
    (
        STATE,
        &[("m", HUTS_LEFT)],
        (1, Kind::Census, Sort::Owned),
        Status::OutOfMemory,
    ),
    (
        STATE,
        &[("m", STEP)],
        (2, Kind::Range, Sort::Moved),
        Status::Done,
    ),
    (
        STATE,
        &[("m", STEP)],
        (1, Kind::Census, Sort::Way),
        Status::Done,
    ),
    (
        JOIN,
        &[("m", STEP)],
        (2, Kind::Range, Sort::Moved),
        Status::OutOfMemory,
    ),
    (
        JOIN,
        &[("m", STEP)],
        (3, Kind::Range, Sort::Moved),
        Status::Done,
    ),
    (
        SESSION,
        &[("m", GUARDS), ("l", FIRST_PLAYS)],
        (1, Kind::Range, Sort::Seen),
        Status::OutOfMemory,
    ),
    (
        SESSION,
        &[("m", GUARDS), ("l", FIRST_PLAYS)],
        (2, Kind::Range, Sort::Seen),
        Status::Done,
    ),
    (
        SESSION,
        &[("m", GUARDS), ("l", BOTH_PLAY)],
        (2, Kind::Range, Sort::Seen),
        Status::OutOfMemory,
    ),
];

// Whether the run ends as the case says, with something printed or stored just where it comes to its end.
fn is_met(alloc: Global, case: &Case) -> Result<bool, OutOfMemory> {
    let (words, files, refusal, status) = case;
    let (ended, is_told) = run_refused(alloc, words, files, *refusal)?;
    Ok(ended == *status && is_told == (ended == Status::Done))
}

// The place of the first case that is not met.
fn first_unmet(alloc: Global, cases: &[Case]) -> Result<Option<usize>, OutOfMemory> {
    for (place, case) in cases.iter().enumerate() {
        if !is_met(alloc, case)? {
            return Ok(Some(place));
        }
    }
    Ok(None)
}

#[test]
fn systems_are_told_and_asked(rt: HostRuntime) -> Result<(), Fail> {
    assert_eq!(rt; first_unmet(rt.alloc(), &CASES)?, None);
    Ok(())
}
