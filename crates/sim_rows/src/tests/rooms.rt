//! A file without room, and one that is too long.

use crate::tests::commands::has_file;
use sim_base::{Global, OutOfMemory};
use sim_store::{MemShelf, MemSink};
use sim_top::Status;
use std::test::Fail;
use test_runs::games::POSTS;
use test_runs::run_words;

// Whether a state of this match is refused its room, nothing is told, and the file that it was to be in is left empty.
fn is_left_empty(alloc: Global, file: &str, room: usize) -> Result<bool, OutOfMemory> {
    let mut shelf = MemShelf::new(alloc, room)?;
    shelf.put("m", file.as_bytes())?;
    let mut out = MemSink::new(alloc, room)?;
    let status = run_words(alloc, &["state", "m", "1", "s"], &mut shelf, &mut out)?;
    Ok(
        status == Status::WriteFault
            && out.told().is_empty()
            && has_file(&shelf, "m", file.as_bytes())
            && has_file(&shelf, "s", b""),
    )
}

#[test]
fn a_file_without_room_is_left_empty(rt: HostRuntime) -> Result<(), Fail> {
    assert!(rt; is_left_empty(rt.alloc(), POSTS, 100)?);
    Ok(())
}

// Plays a match file of so many spaces.
fn played(alloc: Global, length: usize) -> Result<(Status, MemSink), OutOfMemory> {
    let mut bytes = Vec::with_capacity(alloc, length)?;
    bytes.resize(length, b' ')?;
    let mut shelf = MemShelf::new(alloc, 0)?;
    shelf.put("m", &bytes)?;
    let mut out = MemSink::new(alloc, 100)?;
    let status = run_words(alloc, &["play", "m"], &mut shelf, &mut out)?;
    Ok((status, out))
}

fn ends(alloc: Global, length: usize, status: Status, text: &[u8]) -> Result<bool, OutOfMemory> {
    let (ended, out) = played(alloc, length)?;
    Ok(ended == status && out.told() == text)
}

#[test]
fn a_file_may_not_be_longer_than_the_limit(rt: HostRuntime) -> Result<(), Fail> {
    let alloc = rt.alloc();
    let line = b"match refused 1 0\n";
    assert!(rt; ends(alloc, 16_777_216, Status::MatchRefused, line)?);
    assert!(rt; ends(alloc, 16_777_217, Status::TooLong, b"")?);
    Ok(())
}
