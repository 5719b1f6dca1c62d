//! What an error of the system is called, and what is counted for it.

ghost use Rattle.{sim_edge.specs.Answers.Unmade, sim_edge.specs.Answers.Unopened, sim_edge.specs.Answers.WrittenAs, sim_store.specs.Pieces.TakesSome};
ghost use Rattle.std.specs.{Io.WritesAtMost, Io.KnownBytes.WriteAppends, Prelude.ℕ, Prelude.List, Prelude.Option};

use sim_store::{Counts, Failed, ShelfFault};
use std::io;
use std::io::ErrorKind;

/// What is answered where a file was not opened, and the count of it, by the kind of the error.
pub fn not_opened(counts: &mut Counts, kind: ErrorKind) -> Result<bool, ShelfFault>
    ensures { Unopened kind result counts.old counts.new }
{
    match kind {
        ErrorKind::NotFound => {
            counts.add_miss();
            Ok(false)
        }
        ErrorKind::OutOfMemory => Err(ShelfFault::OutOfMemory),
        _ => {
            counts.add_read_fault();
            Err(ShelfFault::Failed)
        }
    }
}

/// The same where a file was not made.
pub fn not_made(counts: &mut Counts, kind: ErrorKind) -> ShelfFault
    ensures { Unmade kind result counts.old counts.new }
{
    match kind {
        ErrorKind::OutOfMemory => ShelfFault::OutOfMemory,
        _ => {
            counts.add_write_fault();
            ShelfFault::Failed
        }
    }
}

/// How much of the piece a write took. One that took nothing of it would be made again for ever, so it is a failed one.
pub fn taken(answer: io::Result<usize>, piece: &[u8]) -> Result<usize, Failed>
    requires { WritesAtMost answer piece.now }
    ensures answer { WrittenAs answer piece.now result }
    ensures takes { TakesSome result piece.now }
    ensures bytes { (old new : Option (List ℕ)) → WriteAppends old new answer piece.now → WriteAppends old new result piece.now }
{
    match answer {
        Ok(count) if count > 0 || piece.is_empty() => Ok(count),
        _ => Err(Failed),
    }
}
