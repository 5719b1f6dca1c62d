//! What a stored state is answered with when a byte of it is changed: each of its first 400 bytes to each other value, and
//! 2,000 of those behind to values that a fixed rule gives. Whether it stands for a state and whether it is loaded have to
//! agree, each refusal has to be the one of the place of the change, and what is loaded has to spell the changed bytes, those
//! of version 1 but for what version 2 adds. It prints for each state how many changes had which answer, those for which that
//! does not hold being `wrong`.

ghost use Rattle.sim_base.specs.Limits.{IsSetup};

use sim_base::{Global, OutOfMemory, Setup};
use sim_codec::{StateFault, load, spell, stands};
use sim_setup::setup_of;
use std::{fs, io};

const FRONT: usize = 400;

const BEHIND: u32 = 2_000;

// Where the version stands: a state of one version is none of the other, though its head is good.
const VERSION_AT: usize = 4;

/// What a state is answered with.
#[derive(Clone, Copy)]
enum Answer {
    Loaded,
    NotState,
    OtherMatch,
    Grammar,
    OutOfMemory,
    Wrong,
}

/// How many changes had each answer.
#[derive(Clone, Copy, Default)]
struct Tally {
    loaded: u64,
    not_state: u64,
    other_match: u64,
    grammar: u64,
    out_of_memory: u64,
    wrong: u64,
}

impl Tally {
    fn count(&mut self, answer: Answer) {
        let place = match answer {
            Answer::Loaded => &mut self.loaded,
            Answer::NotState => &mut self.not_state,
            Answer::OtherMatch => &mut self.other_match,
            Answer::Grammar => &mut self.grammar,
            Answer::OutOfMemory => &mut self.out_of_memory,
            Answer::Wrong => &mut self.wrong,
        };
        *place = place.saturating_add(1);
    }
}

/// Changes the states of the files behind that of a match, and prints how many changes had which answer.
pub fn damage(rt: &HostRuntime, files: &[String]) -> io::Result<()> {
    let [game, states @ ..] = files else {
        return println!(rt; "no match is named");
    };
    let file = fs::read(rt, game.as_str())?;
    let Ok(setup) = setup_of(rt.alloc(), &file) else {
        return println!(rt; "no match");
    };
    for name in states {
        let bytes = fs::read(rt, name.as_str())?;
        print!(rt; "{name}: ")?;
        damage_all(rt, &setup, bytes)?;
    }
    Ok(())
}

// Makes all changes, one at a time, and prints how many had which answer.
fn damage_all(rt: &HostRuntime, setup: &Setup, mut bytes: Vec<u8>) -> io::Result<()>
    requires { IsSetup setup.now }
{
    let mut tally = Tally::default();
    damage_front(rt.alloc(), setup, &mut bytes, &mut tally);
    damage_behind(rt.alloc(), setup, &mut bytes, &mut tally);
    let Tally {
        loaded,
        not_state,
        other_match,
        grammar,
        out_of_memory,
        wrong,
    } = tally;
    println!(rt;
        "loaded {loaded} not-state {not_state} other-match {other_match} grammar {grammar} out-of-memory {out_of_memory} wrong {wrong}"
    )
}

// Each byte at the front, changed to each other value.
fn damage_front(alloc: Global, setup: &Setup, bytes: &mut Vec<u8>, tally: &mut Tally)
    requires { IsSetup setup.now }
{
    for place in 0..bytes.len().min(FRONT) {
        for value in 0..=u8::MAX {
            change(alloc, setup, bytes, place, value, tally);
        }
    }
}

// Bytes behind the front, by a linear congruence of 32 bits.
fn damage_behind(alloc: Global, setup: &Setup, bytes: &mut Vec<u8>, tally: &mut Tally)
    requires { IsSetup setup.now }
{
    if bytes.len() <= FRONT {
        return;
    }
    let behind = bytes.len() - FRONT;
    let mut word = 1;
    for _ in 0..BEHIND {
        word = next(word);
        let place = FRONT + (word >> 8) as usize % behind;
        word = next(word);
        change(alloc, setup, bytes, place, (word >> 24) as u8, tally);
    }
}

fn next(word: u32) -> u32 {
    word.wrapping_mul(1_664_525).wrapping_add(1_013_904_223)
}

// Tries one change, and takes it back. A value that was there before is no change.
fn change(
    alloc: Global,
    setup: &Setup,
    bytes: &mut Vec<u8>,
    place: usize,
    value: u8,
    tally: &mut Tally,
)
    requires { IsSetup setup.now }
{
    let Some(&old) = bytes.get(place) else {
        return;
    };
    if value == old {
        return;
    }
    if let Some(byte) = bytes.get_mut(place) {
        *byte = value;
    }
    tally.count(answer_at(place, answer_to(alloc, setup, bytes)));
    if let Some(byte) = bytes.get_mut(place) {
        *byte = old;
    }
}

// What stands first in a state says what it is, in 8 bytes, and of which match, in 16; a change there has its own refusal.
fn answer_at(place: usize, answer: Answer) -> Answer {
    let fits = match answer {
        Answer::NotState => place < 8,
        Answer::OtherMatch => 8 <= place && place < 24,
        Answer::Grammar => place == VERSION_AT || 24 <= place,
        Answer::Loaded => 24 <= place,
        Answer::OutOfMemory | Answer::Wrong => true,
    };
    same_or_wrong(fits, answer)
}

fn answer_to(alloc: Global, setup: &Setup, bytes: &[u8]) -> Answer
    requires { IsSetup setup.now }
{
    let told = stands(setup, bytes);
    match load(alloc, setup, bytes) {
        Ok(state) if told.is_ok() => loaded(spell(alloc, setup, &state), bytes),
        Ok(_) => Answer::Wrong,
        Err(fault) => refused(told.err(), fault),
    }
}

fn loaded(spelled: Result<Vec<u8>, OutOfMemory>, bytes: &[u8]) -> Answer {
    match spelled {
        Ok(spelled) => same_or_wrong(is_spelled(&spelled, bytes), Answer::Loaded),
        Err(_) => Answer::OutOfMemory,
    }
}

// Whether the bytes are the spelling, or that of version 1, which ends before the last section of it.
fn is_spelled(spelled: &[u8], bytes: &[u8]) -> bool {
    if bytes.get(VERSION_AT) != Some(&1) {
        return spelled == bytes;
    }
    spelled.len() > bytes.len() && bytes.get(8..) == spelled.get(8..bytes.len())
}

fn refused(told: Option<StateFault>, fault: StateFault) -> Answer {
    let answer = match fault {
        StateFault::NotState => Answer::NotState,
        StateFault::OtherMatch => Answer::OtherMatch,
        StateFault::Grammar => Answer::Grammar,
        StateFault::OutOfMemory => return Answer::OutOfMemory,
    };
    same_or_wrong(told == Some(fault), answer)
}

fn same_or_wrong(same: bool, answer: Answer) -> Answer {
    if same { answer } else { Answer::Wrong }
}
