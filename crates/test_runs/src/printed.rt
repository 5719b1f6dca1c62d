//! Files, words and what is printed.

use crate::rig;
use sim_base::{Global, OutOfMemory};
use sim_census::Census;
use sim_edge::{add_rig, run_with};
use sim_ground::Ground;
use sim_range::Range;
use sim_store::{MemShelf, MemSink, Shelf, Sink};
use sim_system::{Rig, System};
use sim_top::Status;
use sim_watch::Watch;

// So many bytes a made file and a printed text have room for.
const ROOM: usize = 400_000;

/// How a run ended, and what it printed.
#[derive(Debug, Drop)]
pub struct Printed {
    pub status: Status,
    pub text: String,
}

/// Words, the files that they name, how the run ends, and what it prints.
pub type Case = (
    &'static [&'static str],
    &'static [(&'static str, &'static str)],
    Status,
    &'static str,
);

/// A shelf that holds these files, with room for those that are made.
pub fn shelf_of(alloc: Global, files: &[(&str, &[u8])]) -> Result<MemShelf, OutOfMemory> {
    let mut shelf = MemShelf::new(alloc, ROOM)?;
    for (name, bytes) in files {
        shelf.put(name, bytes)?;
    }
    Ok(shelf)
}

/// Runs the words with eight rigs of new systems.
pub fn run_words<S: Shelf, K: Sink>(
    alloc: Global,
    words: &[&str],
    shelf: &mut S,
    out: &mut K,
) -> Result<Status, OutOfMemory> {
    let mut rigs = Vec::with_capacity(alloc, 8)?;
    for _ in 0..8u8 {
        add_rig(&mut rigs, rig!(alloc))?;
    }
    let words = words_of(alloc, words)?;
    run_with(alloc, &words, shelf, out, rigs)
}

/// The words as texts of their own.
pub fn words_of(alloc: Global, words: &[&str]) -> Result<Vec<String>, OutOfMemory> {
    let mut texts = Vec::new(alloc);
    for word in words {
        texts.push(String::from_str(alloc, word)?)?;
    }
    Ok(texts)
}

/// Runs the words over the files of a shelf.
pub fn print(alloc: Global, words: &[&str], shelf: &mut MemShelf) -> Result<Printed, OutOfMemory> {
    let mut out = MemSink::new(alloc, ROOM)?;
    let status = run_words(alloc, words, shelf, &mut out)?;
    let text = String::from_utf8_lossy(alloc, out.told())?;
    Ok(Printed { status, text })
}

/// The place of the first case whose run ends or prints otherwise or makes a file `s`, with what it prints.
pub fn first_unmet(alloc: Global, cases: &[Case]) -> Result<Option<(usize, Printed)>, OutOfMemory> {
    for (place, (words, files, status, text)) in cases.iter().enumerate() {
        let mut shelf = MemShelf::new(alloc, ROOM)?;
        for (name, file) in files.iter() {
            shelf.put(name, file.as_bytes())?;
        }
        let printed = print(alloc, words, &mut shelf)?;
        if printed.status != *status
            || printed.text.as_str() != *text
            || shelf.held("s").is_some()
        {
            return Ok(Some((place, printed)));
        }
    }
    Ok(None)
}
