//! The trait of a sink: where the program's text goes. It is a trait so that the program is proved for every sink that
//! keeps these promises, be it standard output or a list of bytes.

ghost use Rattle.{sim_store.specs.{Pieces.Adds, Sink.SinkCounts}, std.specs.Prelude.{List, Option, ℕ}};

use crate::fault::Failed;

/// Takes text, and gives none back.
pub trait Sink {
    /// The bytes that were told, where the sink tells them.
    ghost told: { Self → Option (List ℕ) };

    /// How often writing failed. The count never falls, and stands still at 2^64 - 1.
    ghost faults: { Self → ℕ };

    /// Adds the beginning of the piece at the end of what was told, and answers how much of it.
    fn write(&mut self, piece: &[u8]) -> Result<usize, Failed>
        ensures adds { Adds result piece.now (told self.old) (told self.new) }
        ensures counts { SinkCounts result (faults self.old) (faults self.new) };
}
