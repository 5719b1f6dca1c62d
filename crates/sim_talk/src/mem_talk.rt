//! A talk in memory, whose lines are given, and which keeps what passed.

ghost use Rattle.sim_talk.specs.{MemTalk.{HearsGiven, history_of, KeepsTold, lines_in, passed_in}, Talks.{Hears, Passed, Tells}};
ghost use Rattle.std.specs.Prelude.{IfOk, IsErr, length, List, OnErr, OnOk, ℕ, [], ◌++◌, ◌-◌, ◌∷◌, ◌≡◌, ◌≤◌};

use crate::{HearFault, Talk, TalkFault};
use sim_base::{Global, OutOfMemory};
use sim_store::{Failed, one_more};

/// One thing that passed.
#[derive(Debug, Drop)]
pub enum Piece {
    Heard { line: Vec<u8> },
    Told { text: Vec<u8> },
}

/// Lines that are to be heard, how hearing ends behind them, what passed, and how often reading and writing failed.
#[derive(Drop)]
pub struct MemTalk {
    alloc: Global,
    // The last one comes first.
    coming: Vec<Vec<u8>>,
    end: Option<HearFault>,
    room: usize,
    passed: Vec<Piece>,
    unread: u64,
    unwritten: u64,
}

impl MemTalk {
    /// A talk of these lines, the last of which is heard first. Behind them the input ends, or has this fault. Of the texts it takes so
    /// many bytes in all.
    pub fn new(alloc: Global, coming: Vec<Vec<u8>>, end: Option<HearFault>, room: usize) -> MemTalk
        ensures passed { passed_in result.passed.items ≡ [] }
        ensures coming { lines_in result.coming.items ≡ lines_in coming.items }
        ensures end { result.end ≡ end }
        ensures room { result.room ≡ room }
        ensures read { result.unread ≡ 0 }
        ensures written { result.unwritten ≡ 0 }
    {
        MemTalk {
            alloc,
            coming,
            end,
            room,
            passed: Vec::new(alloc),
            unread: 0,
            unwritten: 0,
        }
    }

    /// What passed, the oldest first.
    pub fn passed(&self) -> &[Piece]
        ensures { result.now ≡ self.now.passed.items }
    {
        &self.passed
    }
}

impl Talk for MemTalk {
    ghost history = { λ s. history_of (passed_in s.passed.items) s.unread s.unwritten };

    /// Hears the last of the lines that are left.
    fn hear(&mut self, line: &mut Vec<u8>) -> Result<bool, TalkFault>
        ensures passed { Hears result line.new.items (history_of (passed_in self.old.passed.items) self.old.unread self.old.unwritten)
            (history_of (passed_in self.new.passed.items) self.new.unread self.new.unwritten) }
        ensures given { HearsGiven result self.old.end line.new.items (lines_in self.old.coming.items) (lines_in self.new.coming.items) }
        ensures end { self.new.end ≡ self.old.end }
        ensures room { self.new.room ≡ self.old.room }
    {
        let Some(next) = self.coming.pop() else {
            return ending(self.end, &mut self.unread);
        };
        let Ok(copy) = copied(self.alloc, &next) else {
            return Err(TalkFault::from(HearFault::OutOfMemory));
        };
        *line = next;
        match keep(&mut self.passed, Piece::Heard { line: copy }) {
            Ok(()) => Ok(true),
            Err(OutOfMemory) => Err(TalkFault::from(HearFault::OutOfMemory)),
        }
    }

    /// Takes of the text what there is room for. A text that does not fit was not told whole.
    fn tell(&mut self, text: &[u8]) -> Result<(), Failed>
        ensures passed { Tells result text.now (history_of (passed_in self.old.passed.items) self.old.unread self.old.unwritten)
            (history_of (passed_in self.new.passed.items) self.new.unread self.new.unwritten) }
        ensures fits { OnOk result (length text.now ≤ self.old.room) }
        ensures room { self.new.room ≡ self.old.room - length text.now }
        ensures coming { self.new.coming ≡ self.old.coming }
        ensures end { self.new.end ≡ self.old.end }
    {
        let count = text.len().min(self.room);
        self.room -= count;
        let told = tell_all(self.alloc, &mut self.passed, &text[..count]);
        if told.is_ok() && count == text.len() {
            return Ok(());
        }
        self.unwritten = one_more(self.unwritten);
        Err(Failed)
    }

    /// What is told has passed, and none of it is kept.
    fn settle(&mut self) -> Result<(), Failed> {
        Ok(())
    }
}

// How hearing ends behind all lines.
fn ending(end: Option<HearFault>, unread: &mut u64) -> Result<bool, TalkFault>
    ensures heard { (line : List ℕ) (passed : List Passed) (unwritten : ℕ)
        → Hears result line (history_of passed unread.old unwritten) (history_of passed unread.new unwritten) }
    ensures given { (line : List ℕ) → HearsGiven result end line [] [] }
{
    let Some(fault) = end else {
        return Ok(false);
    };
    if fault == HearFault::Failed {
        *unread = one_more(*unread);
    }
    Err(TalkFault::from(fault))
}

// Keeps a text as told, or nothing of it.
fn tell_all(alloc: Global, passed: &mut Vec<Piece>, text: &[u8]) -> Result<(), Failed>
    ensures { KeepsTold result text.now (passed_in passed.old.items) (passed_in passed.new.items) }
{
    let Ok(copy) = copied(alloc, text) else {
        return Err(Failed);
    };
    match keep(passed, Piece::Told { text: copy }) {
        Ok(()) => Ok(()),
        Err(OutOfMemory) => Err(Failed),
    }
}

// The same bytes in memory of their own.
fn copied(alloc: Global, bytes: &[u8]) -> Result<Vec<u8>, OutOfMemory>
    ensures { IfOk result (λ copy. copy.items ≡ bytes.now) }
{
    Ok(bytes.to_vec(alloc)?)
}

// Keeps one thing more.
fn keep(passed: &mut Vec<Piece>, piece: Piece) -> Result<(), OutOfMemory>
    ensures ok { OnOk result (passed.new.items ≡ passed.old.items ++ piece ∷ []) }
    ensures err { OnErr result (passed.new.items ≡ passed.old.items) }
{
    passed.push(piece)?;
    Ok(())
}
