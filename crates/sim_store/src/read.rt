//! Reading a whole file, over any shelf. It is the one way by which a file's bytes come into the program, so the limit
//! on a file's length is kept here.

ghost use Rattle.std.specs.Prelude.{IfSome, IsTrue, ◌≢◌};
ghost use Rattle.sim_store.specs.{Held.file_in, Reading.LeavesOpen, Reading.ReadMeets, Reading.ReadsUp, Reading.reading_of, Reading.within_limit};

use crate::{Shelf, ShelfFault, StoreFault};
use std::alloc::Global;

/// How many bytes a file may have.
pub const MAX_FILE: usize = 16_777_216;

// How many bytes are asked for at once.
const PIECE: usize = 4096;

/// The whole file of this name. It stays open, read to its end.
pub fn read_file<S: Shelf>(alloc: Global, shelf: &mut S, name: &str) -> Result<Vec<u8>, StoreFault>
    ensures tells { IfSome (S.held shelf.old) (λ files. ReadMeets result (reading_of (file_in files name.now))) }
    ensures opened { LeavesOpen result (S.is_open shelf.new) }
    ensures reads { ReadsUp result S.Shelf shelf.old shelf.new }
{
    match shelf.open(name) {
        Ok(true) => read_rest(alloc, shelf),
        Ok(false) => Err(StoreFault::NoFile),
        Err(ShelfFault::Failed) => Err(StoreFault::ReadFault),
        Err(ShelfFault::OutOfMemory) => Err(StoreFault::OutOfMemory),
    }
}

// All that is left of the open file.
fn read_rest<S: Shelf>(alloc: Global, shelf: &mut S) -> Result<Vec<u8>, StoreFault>
    requires { IsTrue (S.is_open shelf.old) }
    ensures tells { IfSome (S.rest shelf.old) (λ left. ReadMeets result (within_limit left)) }
    ensures found { result ≢ Err StoreFault.NoFile }
    ensures opened { IsTrue (S.is_open shelf.new) }
    ensures reads { ReadsUp result S.Shelf shelf.old shelf.new }
{
    let mut bytes = Vec::new(alloc);
    let mut piece = [0; PIECE];
    'pieces: loop {
        let Ok(count) = shelf.read(&mut piece) else {
            return Err(StoreFault::ReadFault);
        };
        if count == 0 {
            return Ok(bytes);
        }
        if count > MAX_FILE - bytes.len() {
            return Err(StoreFault::TooLong);
        }
        bytes.extend_from_slice(&piece[..count])?;
    }
}
