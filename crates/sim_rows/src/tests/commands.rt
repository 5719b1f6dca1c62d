//! The commands that are run, with the files that they read.

use sim_base::{Global, OutOfMemory};
use sim_store::{MemShelf, MemSink};
use sim_top::Status;
use test_runs::{print, run_words, shelf_of};

// A walker that is told to walk.
const WALK: &str =
    r#"{"size":[8,8],"closed":[],"players":[[]],"cap":0,"delay":1,"turns":2,"seed":0,"templates":[{"@name":"walker","Motion":{"Speed":10}}],"entities":[["walker",1,"2.5","2.5"]],"commands":[[1,1,"walk",[2],"6.5","2.5"]]}"#;

// What the file `s` holds before a command saves a state there. A file `new` is not held before.
const BEFORE: &[u8] = b"before";

/// Words, how many calls of the shelf read their files, and where they save a state, or nothing.
pub type Command = (&'static [&'static str], u64, &'static str);

/// Each file that is read takes three calls: it is opened, it is read whole, and it has come to its end.
pub static COMMANDS: [Command; 7] = [
    (&["play", "m"], 3, ""),
    (&["state", "m", "1", "s"], 3, "s"),
    (&["state", "m", "1", "new"], 3, "new"),
    (&["resume", "m", "a"], 6, ""),
    (&["rejoin", "m", "1"], 3, ""),
    (&["show", "m", "a"], 6, ""),
    (&["compare", "m", "a", "b"], 9, ""),
];

/// The state of the match at turn 1, as it is stored.
pub fn stored(alloc: Global) -> Result<Vec<u8>, OutOfMemory> {
    let mut shelf = shelf_of(alloc, &[("m", WALK.as_bytes())])?;
    print(alloc, &["state", "m", "1", "s"], &mut shelf)?;
    match shelf.held("s") {
        Some(bytes) => Ok(bytes.to_vec(alloc)?),
        None => Ok(Vec::new(alloc)),
    }
}

/// The files of the commands, where one call of the shelf is listed to fail, or none with 0.
pub fn files(alloc: Global, state: &[u8], call: u64) -> Result<MemShelf, OutOfMemory> {
    let mut shelf = shelf_of(
        alloc,
        &[
            ("m", WALK.as_bytes()),
            ("a", state),
            ("b", state),
            ("s", BEFORE),
        ],
    )?;
    shelf.fail_at(call)?;
    Ok(shelf)
}

/// Runs the words, where one write of the sink is listed to fail, or none with 0.
pub fn run_over(
    alloc: Global,
    words: &[&str],
    shelf: &mut MemShelf,
    write: u64,
) -> Result<(Status, MemSink), OutOfMemory> {
    let mut out = MemSink::new(alloc, 500)?;
    out.fail_at(write)?;
    let status = run_words(alloc, words, shelf, &mut out)?;
    Ok((status, out))
}

/// Whether a file of this name holds just these bytes.
pub fn has_file(shelf: &MemShelf, name: &str, bytes: &[u8]) -> bool {
    match shelf.held(name) {
        Some(held) => held == bytes,
        None => false,
    }
}

/// Whether each file that is read is as it was.
pub fn are_inputs_kept(shelf: &MemShelf, state: &[u8]) -> bool {
    has_file(shelf, "m", WALK.as_bytes())
        && has_file(shelf, "a", state)
        && has_file(shelf, "b", state)
}

// Whether a file is as it was, or holds the beginning of the state, if one is saved there.
fn is_part(shelf: &MemShelf, name: &str, before: Option<&[u8]>, state: &[u8], saves: &str) -> bool {
    match shelf.held(name) {
        Some(held) => Some(held) == before || (name == saves && state.starts_with(held)),
        None => before.is_none(),
    }
}

/// Whether each file that a state may be saved in is as it was, or holds the beginning of the state that is saved there.
pub fn is_saved_in_part(shelf: &MemShelf, state: &[u8], saves: &str) -> bool {
    is_part(shelf, "s", Some(BEFORE), state, saves) && is_part(shelf, "new", None, state, saves)
}

/// Whether the whole state is held where it is saved, and the other such file is as it was.
pub fn is_saved(shelf: &MemShelf, state: &[u8], saves: &str) -> bool {
    let is_new = match shelf.held("new") {
        Some(held) => saves == "new" && held == state,
        None => saves != "new",
    };
    is_new && has_file(shelf, "s", if saves == "s" { state } else { BEFORE })
}
