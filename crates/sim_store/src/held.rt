//! Files in memory, the newest first. They stand apart from the shelf that holds them, so that what becomes of the list
//! of files is said and proved over the list alone.

ghost use Rattle.std.specs.Prelude.{IsOk, length, OnErr, OnOk, option_copied, vec_capacity, vec_len, ◌++◌, ◌-◌, ◌<◌, ◌↔◌, ◌≡◌, ◌≤◌};
ghost use Rattle.sim_store.specs.Held.{AddsFirst, file_in, files_of, FileSet, first_bytes, first_capacity, first_name};

use crate::fault::Failed;
use std::alloc::{AllocError, Global};

/// A file in memory.
#[derive(Drop)]
pub struct Held {
    pub name: String,
    pub bytes: Vec<u8>,
}

impl Held {
    /// Adds the piece at the end, unless that would take the file past the room. It takes no memory.
    fn add(&mut self, room: usize, piece: &[u8]) -> Result<(), Failed>
        requires { room ≤ vec_capacity self.old.bytes }
        ensures fits { IsOk result ↔ (length piece.now ≤ room - length self.old.bytes.items) }
        ensures ok { OnOk result (self.new.bytes.items ≡ self.old.bytes.items ++ piece.now) }
        ensures err { OnErr result (self.new.bytes.items ≡ self.old.bytes.items) }
        ensures name { self.new.name ≡ self.old.name }
        ensures capacity { vec_capacity self.old.bytes ≤ vec_capacity self.new.bytes }
    {
        if piece.len() > room.saturating_sub(self.bytes.len()) {
            return Err(Failed);
        }
        self.bytes.extend_from_slice(piece).unwrap();
        Ok(())
    }
}

/// The bytes of the first file of this name.
pub fn find<'a>(files: &'a [Held], name: &str) -> Option<&'a [u8]>
    ensures { option_copied result ≡ file_in (files_of files.now) name.now }
{
    let mut rest = files;
    while let [file, more @ ..] = rest {
        if file.name.as_str() == name {
            return Some(file.bytes.as_slice());
        }
        rest = more;
    }
    None
}

/// Puts a file before all others, so that it is the one of its name.
pub fn put_first(
    alloc: Global,
    files: &mut Vec<Held>,
    name: &str,
    bytes: Vec<u8>,
) -> Result<(), AllocError>
    ensures set { OnOk result (FileSet name.now bytes.items (files_of files.old.items) (files_of files.new.items)) }
    ensures name { OnOk result (first_name files.new.items ≡ name.now) }
    ensures bytes { OnOk result (first_bytes files.new.items ≡ bytes.items) }
    ensures capacity { OnOk result (first_capacity files.new.items ≡ vec_capacity bytes) }
    ensures some { OnOk result (0 < vec_len files.new) }
    ensures err { OnErr result (files.new.items ≡ files.old.items) }
{
    let name = String::from_str(alloc, name)?;
    files.insert(0, Held { name, bytes })?;
    Ok(())
}

/// Adds the piece at the end of the first file, unless that would take it past the room.
pub fn add_to_first(files: &mut Vec<Held>, room: usize, piece: &[u8]) -> Result<(), Failed>
    requires some { 0 < vec_len files.old }
    requires capacity { room ≤ first_capacity files.old.items }
    ensures fits { IsOk result ↔ (length piece.now ≤ room - length (first_bytes files.old.items)) }
    ensures ok { OnOk result (AddsFirst piece.now (files_of files.old.items) (files_of files.new.items)) }
    ensures err { OnErr result (files_of files.new.items ≡ files_of files.old.items) }
    ensures bytes { OnOk result (first_bytes files.new.items ≡ first_bytes files.old.items ++ piece.now) }
    ensures bytes_err { OnErr result (first_bytes files.new.items ≡ first_bytes files.old.items) }
    ensures name { first_name files.new.items ≡ first_name files.old.items }
    ensures capacity { first_capacity files.old.items ≤ first_capacity files.new.items }
    ensures some { 0 < vec_len files.new }
{
    files[0].add(room, piece)
}
