//! The edge, over a system in memory that interrupts, cuts short and refuses, and over the real one.

use crate::tests::one_file::{Calls, Handle, OneFile, PLAIN};
use sim_base::{Global, OutOfMemory};
use sim_edge::{FileShelf, OutSink, SystemFiles, Writable};
use sim_store::{StoreFault, read_file, write_file, write_out};
use sim_top::Status;
use std::io::ErrorKind;
use std::test::Fail;
use std::{fs, io};
use test_runs::run_words;

// How the calls of a file go, and whether all of it is moved. A call is made again a thousand times.
static CALLS: [(Calls, bool); 7] = [
    (PLAIN, true),
    (
        Calls {
            signals: 1,
            ..PLAIN
        },
        true,
    ),
    (
        Calls {
            signals: 1000,
            ..PLAIN
        },
        true,
    ),
    (
        Calls {
            signals: 1001,
            ..PLAIN
        },
        false,
    ),
    (
        Calls {
            signals: 3,
            most: 1,
            fault: None,
        },
        true,
    ),
    (
        Calls {
            signals: 1,
            most: 1,
            fault: Some(ErrorKind::WouldBlock),
        },
        false,
    ),
    (Calls { most: 0, ..PLAIN }, false),
];

// Whether a file of these bytes takes four others in their place, and what is then read of it.
fn moved(alloc: Global, name: &'static str, bytes: &[u8], others: &[u8], calls: Calls) -> Moved {
    let mut shelf = FileShelf::new(OneFile::new(alloc, name, bytes, calls)?);
    let is_written = write_file(&mut shelf, name, others).is_ok();
    Ok((is_written, read_file(alloc, &mut shelf, name).ok()))
}

/// Whether a file was written, and what was read of it.
type Moved = Result<(bool, Option<Vec<u8>>), OutOfMemory>;

// Whether a file is written and read just where all of it is moved. A read of nothing is the end of a file, and no fault.
fn is_file_moved(alloc: Global, calls: Calls, is_whole: bool) -> Result<bool, OutOfMemory> {
    let (is_written, read) = moved(alloc, "m", b"hello", b"four", calls)?;
    Ok(is_written == is_whole && (calls.most == 0 || is_read(&read, b"four", is_whole)))
}

// Whether just these bytes are read, or nothing is, where they are not to be read.
fn is_read(read: &Option<Vec<u8>>, bytes: &[u8], is_whole: bool) -> bool {
    match read {
        Some(found) => is_whole && found.as_slice() == bytes,
        None => !is_whole,
    }
}

// Whether this text is told just where all of it is moved.
fn is_text_moved(alloc: Global, text: &[u8], calls: Calls, is_whole: bool) -> bool {
    let mut handle = Handle::new(Vec::new(alloc), calls);
    let is_told = write_out(&mut OutSink::new(&mut handle), text).is_ok();
    is_told == is_whole && (handle.bytes.as_slice() == text) == is_whole
}

// The first of these calls by which a file or a text is moved otherwise.
fn first_moved_otherwise(
    alloc: Global,
    cases: &[(Calls, bool)],
) -> Result<Option<usize>, OutOfMemory> {
    for (place, (calls, is_whole)) in cases.iter().enumerate() {
        if !is_file_moved(alloc, *calls, *is_whole)?
            || !is_text_moved(alloc, b"hello", *calls, *is_whole)
        {
            return Ok(Some(place));
        }
    }
    Ok(None)
}

#[test]
fn files_and_texts_are_moved_whole_past_signals(rt: HostRuntime) -> Result<(), Fail> {
    assert_eq!(rt; first_moved_otherwise(rt.alloc(), &CALLS)?, None);
    Ok(())
}

// What an opening or a making fails with, and what the reading and the writing of a file then answer.
static REFUSALS: [(ErrorKind, StoreFault, StoreFault); 4] = [
    (
        ErrorKind::NotFound,
        StoreFault::NoFile,
        StoreFault::WriteFault,
    ),
    (
        ErrorKind::OutOfMemory,
        StoreFault::OutOfMemory,
        StoreFault::OutOfMemory,
    ),
    (
        ErrorKind::PermissionDenied,
        StoreFault::ReadFault,
        StoreFault::WriteFault,
    ),
    (
        ErrorKind::NotADirectory,
        StoreFault::ReadFault,
        StoreFault::WriteFault,
    ),
];

// How the reading and the writing of a file fail whose opening and making fail so.
fn refused(
    alloc: Global,
    name: &'static str,
    bytes: &[u8],
    kind: ErrorKind,
) -> Result<[Option<StoreFault>; 2], OutOfMemory> {
    let mut system = OneFile::new(alloc, name, bytes, PLAIN)?;
    system.refusal = Some(kind);
    let mut shelf = FileShelf::new(system);
    let of_reading = read_file(alloc, &mut shelf, name).err();
    Ok([of_reading, write_file(&mut shelf, name, bytes).err()])
}

// The first of these refusals that is answered otherwise.
fn first_refused_otherwise(
    alloc: Global,
    cases: &[(ErrorKind, StoreFault, StoreFault)],
) -> Result<Option<usize>, OutOfMemory> {
    for (place, (kind, of_reading, of_writing)) in cases.iter().enumerate() {
        if refused(alloc, "m", b"hello", *kind)? != [Some(*of_reading), Some(*of_writing)] {
            return Ok(Some(place));
        }
    }
    Ok(None)
}

#[test]
fn each_refusal_of_the_system_has_its_answer(rt: HostRuntime) -> Result<(), Fail> {
    assert_eq!(rt; first_refused_otherwise(rt.alloc(), &REFUSALS)?, None);
    Ok(())
}

const EMPTY: &[u8] =
    br#"{"size":[4,4],"closed":[],"players":[[]],"cap":0,"delay":1,"turns":0,"seed":0,"templates":[],"entities":[],"commands":[]}"#;

// Plays the match of the one file, if its name is this word: how it ends, and what is printed.
fn played(
    alloc: Global,
    bytes: &[u8],
    word: &str,
    calls: Calls,
) -> Result<(Status, Vec<u8>), OutOfMemory> {
    let mut shelf = FileShelf::new(OneFile::new(alloc, "m", bytes, calls)?);
    let mut handle = Handle::new(Vec::new(alloc), calls);
    let mut sink = OutSink::new(&mut handle);
    let status = run_words(alloc, &["play", word], &mut shelf, &mut sink)?;
    Ok((status, handle.bytes))
}

// Whether a match of no turns and no entities ends so and prints this.
fn ends(
    alloc: Global,
    word: &str,
    calls: Calls,
    status: Status,
    text: &[u8],
) -> Result<bool, OutOfMemory> {
    let (ended, printed) = played(alloc, EMPTY, word, calls)?;
    Ok(ended == status && printed.as_slice() == text)
}

// Two signals come before each call, which moves at most three bytes.
const SLOW: Calls = Calls {
    signals: 2,
    most: 3,
    fault: None,
};

#[test]
fn a_match_is_played_past_signals_and_from_the_file_of_its_name(
    rt: HostRuntime,
) -> Result<(), Fail> {
    let line = b"turn 0 f045e20832dcdb5bcfa49197045e3f42\n";
    assert!(rt; ends(rt.alloc(), "m", SLOW, Status::Done, line)?);
    assert!(rt; ends(rt.alloc(), "m ", PLAIN, Status::NoFile, b"")?);
    Ok(())
}

const NAME: &str = "sim-rows-edge-test.bin";

// 10,000 bytes.
fn many_bytes(alloc: Global) -> Result<Vec<u8>, OutOfMemory> {
    let mut bytes = Vec::new(alloc);
    for i in 0..10000u32 {
        bytes.push((i % 251) as u8)?;
    }
    Ok(bytes)
}

// Whether a real file takes these bytes, and they are read of it.
fn is_kept(rt: &HostRuntime, name: &str, bytes: &[u8]) -> bool {
    let mut shelf = FileShelf::new(SystemFiles::new(rt));
    let is_written = write_file(&mut shelf, name, bytes).is_ok();
    let read = read_file(rt.alloc(), &mut shelf, name).ok();
    is_written && is_read(&read, bytes, true)
}

fn fault_of_reading(rt: &HostRuntime, name: &str) -> Option<StoreFault> {
    let mut shelf = FileShelf::new(SystemFiles::new(rt));
    read_file(rt.alloc(), &mut shelf, name).err()
}

fn fault_of_writing(rt: &HostRuntime, name: &str, bytes: &[u8]) -> Option<StoreFault> {
    let mut shelf = FileShelf::new(SystemFiles::new(rt));
    write_file(&mut shelf, name, bytes).err()
}

#[test]
fn a_real_file_is_written_and_read(rt: HostRuntime) -> Result<(), Fail> {
    let bytes = many_bytes(rt.alloc())?;
    assert!(rt; is_kept(&rt, NAME, &bytes));
    fs::remove_file(&rt, NAME)?;
    assert_eq!(rt; fault_of_reading(&rt, NAME), Some(StoreFault::NoFile));
    assert_eq!(rt; fault_of_reading(&rt, ""), Some(StoreFault::NoFile));
    assert_eq!(rt; fault_of_reading(&rt, "."), Some(StoreFault::ReadFault));
    assert_eq!(rt;
        fault_of_writing(&rt, "no/such/folder/file", &bytes),
        Some(StoreFault::WriteFault)
    );
    Ok(())
}

// How the telling of a text to a device ends.
fn fault_of_telling<W: Writable + Drop>(device: W, text: &[u8]) -> Option<StoreFault> {
    write_out(&mut OutSink::new(device), text).err()
}

#[test]
fn a_real_output_takes_a_text(rt: HostRuntime) -> Result<(), Fail> {
    let text = b"a text\n";
    assert_eq!(rt; fault_of_telling(io::writer(&rt), text), None);
    let full = fs::create(&rt, "/dev/full")?;
    assert_eq!(rt; fault_of_telling(full, text), Some(StoreFault::WriteFault));
    Ok(())
}
