//! The files that bytes spell: of each the length of its name in four bytes, the lowest first, the name, the length of its content in four
//! bytes, and the content.

ghost use Rattle.std.specs.Prelude.{◌≡◌, ◌<◌, length, is_some, IfSome, IfOk, None, Ok, option_map};
ghost use Rattle.sim_packed.specs.Files.{file_at, files_in, piece_at, HoldsSpelled, unpacked_of};

use crate::words::text_of;
use sim_base::{Global, OutOfMemory};
use sim_store::{MAX_FILE, MemShelf};

/// The first file of bytes, and the bytes behind it.
#[derive(Clone, Copy)]
struct Unpacked<'a> {
    name: &'a str,
    bytes: &'a [u8],
    rest: &'a [u8],
}

/// A shelf that holds the files, of those with one name the last, and gives each file that is made the room that a file may have. None
/// where the bytes spell no files, which is found without memory.
pub fn shelf_from(alloc: Global, bytes: &[u8]) -> Result<Option<MemShelf>, OutOfMemory>
    ensures shelf { IfOk result (HoldsSpelled bytes.now) }
    ensures none { files_in bytes.now ≡ None → result ≡ Ok None }
{
    if !are_files(bytes) {
        return Ok(None);
    }
    let mut shelf = MemShelf::new(alloc, MAX_FILE)?;
    let mut rest = bytes;
    while !rest.is_empty() {
        let Some(file) = first_file(rest) else {
            return Ok(None);
        };
        shelf.put(file.name, file.bytes)?;
        rest = file.rest;
    }
    Ok(Some(shelf))
}

// Whether bytes spell files.
fn are_files(bytes: &[u8]) -> bool
    ensures { result ≡ is_some (files_in bytes.now) }
{
    let mut left = bytes;
    while !left.is_empty() {
        let Some(file) = first_file(left) else {
            return false;
        };
        left = file.rest;
    }
    true
}

fn first_file(bytes: &[u8]) -> Option<Unpacked<'_>>
    ensures file { option_map unpacked_of result ≡ file_at bytes.now }
    ensures shorter { IfSome result (λ file. length file.rest.now < length bytes.now) }
{
    let (name, rest) = piece(bytes)?;
    let name = text_of(name)?;
    let (bytes, rest) = piece(rest)?;
    Some(Unpacked { name, bytes, rest })
}

// The bytes behind their length, and what is behind them.
fn piece(bytes: &[u8]) -> Option<(&[u8], &[u8])>
    ensures parts { option_map (λ parts. (parts.0.now, parts.1.now)) result ≡ piece_at bytes.now }
    ensures shorter { IfSome result (λ parts. length parts.1.now < length bytes.now) }
{
    let [a, b, c, d, rest @ ..] = bytes else {
        return None;
    };
    let count = u32::from_le_bytes([*a, *b, *c, *d]) as usize;
    if rest.len() < count {
        return None;
    }
    Some(rest.split_at(count))
}
