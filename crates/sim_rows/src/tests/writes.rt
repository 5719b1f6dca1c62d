//! Each write of the sink fails in turn, and one that takes little at a time.

ghost use Rattle.{sim_store.specs.MemSink.faults_of, std.specs.Prelude.None};

use crate::tests::commands::{
    COMMANDS, Command, are_inputs_kept, files, is_saved, run_over, stored,
};
use sim_base::{Global, OutOfMemory};
use sim_store::{Failed, MemShelf, MemSink, Sink};
use sim_top::Status;
use std::test::Fail;
use test_runs::{run_words, shelf_of};

// Runs the words where this write fails: the status, whether a beginning of the text was told, and whether the files are as
// they have to be.
fn with_failing(
    alloc: Global,
    words: &[&str],
    saves: &str,
    state: &[u8],
    write: u64,
    text: &[u8],
) -> Result<(Status, bool, bool), OutOfMemory> {
    let mut shelf = files(alloc, state, 0)?;
    let (status, out) = run_over(alloc, words, &mut shelf, write)?;
    let is_kept = are_inputs_kept(&shelf, state) && is_saved(&shelf, state, saves);
    Ok((status, text.starts_with(out.told()), is_kept))
}

// Whether each write that fails ends the command with its fault.
fn is_met(alloc: Global, command: &Command, state: &[u8]) -> Result<bool, OutOfMemory> {
    let (words, _, saves) = command;
    let mut healthy = files(alloc, state, 0)?;
    let (done, whole) = run_over(alloc, words, &mut healthy, 0)?;
    let mut met = done == Status::Done && 0 < whole.calls();
    for write in 1..=whole.calls() {
        let outcome = with_failing(alloc, words, saves, state, write, whole.told())?;
        met = met && outcome == (Status::WriteFault, true, true);
    }
    Ok(met)
}

#[test]
fn every_write_of_the_sink_may_fail(rt: HostRuntime) -> Result<(), Fail> {
    let alloc = rt.alloc();
    let state = stored(alloc)?;
    for command in &COMMANDS {
        assert!(rt; is_met(alloc, command, &state)?, "for {command:?}");
    }
    Ok(())
}

/// A sink that takes at most two bytes at a time. It tells nothing, as the real one does.
#[derive(Drop)]
struct SlowSink {
    sink: MemSink,
}

impl Sink for SlowSink {
    ghost told = { λ _. None };

    ghost faults = { λ slow. faults_of slow.sink };

    fn write(&mut self, piece: &[u8]) -> Result<usize, Failed> {
        let most = piece.len().min(2);
        self.sink.write(&piece[..most])
    }
}

const EMPTY: &str =
    r#"{"size":[4,4],"closed":[],"players":[[]],"cap":0,"delay":1,"turns":2,"seed":0,"templates":[],"entities":[],"commands":[]}"#;

const EMPTY_LINES: &str = "turn 0 5b806e0a0bade72a51c70140518a0ad1
turn 1 a04b5eab7964089994f7c0397fb83f96
turn 2 ecaa1e1ccacbb4004f81e22fb1d95364
";

// How a run ends of which this write fails, with so much room, and what was told until then.
fn cut_short(
    alloc: Global,
    shelf: &mut MemShelf,
    room: usize,
    write: u64,
) -> Result<(Status, MemSink), OutOfMemory> {
    let mut out = SlowSink {
        sink: MemSink::new(alloc, room)?,
    };
    out.sink.fail_at(write)?;
    let ended = run_words(alloc, &["play", "m"], shelf, &mut out)?;
    Ok((ended, out.sink))
}

// The first byte of the lines at which the text of a match is not cut short as it has to be.
fn first_otherwise(alloc: Global, file: &str, lines: &[u8]) -> Result<Option<usize>, OutOfMemory> {
    let mut shelf = shelf_of(alloc, &[("m", file.as_bytes())])?;
    for told in (0..lines.len()).step_by(2) {
        let (ended, sink) = cut_short(alloc, &mut shelf, lines.len(), told as u64 / 2 + 1)?;
        if ended != Status::WriteFault || Some(sink.told()) != lines.get(..told) {
            return Ok(Some(told));
        }
    }
    Ok(None)
}

#[test]
fn a_text_is_cut_short_where_its_sink_fails(rt: HostRuntime) -> Result<(), Fail> {
    let found = first_otherwise(rt.alloc(), EMPTY, EMPTY_LINES.as_bytes())?;
    assert_eq!(rt; found, None);
    Ok(())
}
