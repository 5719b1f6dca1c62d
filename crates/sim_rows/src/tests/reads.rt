//! Each call of the shelf fails in turn.

use crate::tests::commands::{
    COMMANDS, Command, are_inputs_kept, files, is_saved_in_part, run_over, stored,
};
use sim_base::{Global, OutOfMemory};
use sim_top::Status;
use std::test::Fail;

/// What has come of a run: its status; whether anything was printed; whether the files are as they have to be; and whether
/// the same words, run again over them, come to their end with their text.
type Outcome = (Status, bool, bool, bool);

// Runs the words where this call of the shelf fails.
fn with_failing(
    alloc: Global,
    words: &[&str],
    saves: &str,
    state: &[u8],
    call: u64,
    text: &[u8],
) -> Result<Outcome, OutOfMemory> {
    let mut shelf = files(alloc, state, call)?;
    let (status, out) = run_over(alloc, words, &mut shelf, 0)?;
    let is_kept = are_inputs_kept(&shelf, state) && is_saved_in_part(&shelf, state, saves);
    let (again, second) = run_over(alloc, words, &mut shelf, 0)?;
    let is_whole = again == Status::Done && second.told() == text;
    Ok((status, !out.told().is_empty(), is_kept, is_whole))
}

// Whether each call of the shelf that fails ends the command with its fault, and leaves all as it has to be. Those that read come first.
fn is_met(alloc: Global, command: &Command, state: &[u8]) -> Result<bool, OutOfMemory> {
    let (words, reads, saves) = command;
    let mut healthy = files(alloc, state, 0)?;
    let (done, whole) = run_over(alloc, words, &mut healthy, 0)?;
    let mut met = done == Status::Done && *reads <= healthy.calls();
    for call in 1..=healthy.calls() {
        let outcome = with_failing(alloc, words, saves, state, call, whole.told())?;
        met = met && outcome == (fault_of(call <= *reads), false, true, true);
    }
    Ok(met)
}

fn fault_of(reads: bool) -> Status {
    if reads {
        Status::ReadFault
    } else {
        Status::WriteFault
    }
}

#[test]
fn every_call_of_the_shelf_may_fail(rt: HostRuntime) -> Result<(), Fail> {
    let alloc = rt.alloc();
    let state = stored(alloc)?;
    for command in &COMMANDS {
        assert!(rt; is_met(alloc, command, &state)?, "for {command:?}");
    }
    Ok(())
}
