//! The trait of an input: bytes come from it, in pieces as they are there. It is a trait so that a talk is proved for every input
//! that keeps these promises, be it standard input or a list of bytes.

ghost use Rattle.{sim_store.specs.{Pieces.Moves, Sink.SinkCounts}, std.specs.Prelude.{List, Option, ℕ}};

use sim_store::Failed;

/// Gives bytes, and takes none back.
pub trait Source {
    /// The bytes that are to come, where the source tells them.
    ghost left: { Self → Option (List ℕ) };

    /// How often reading failed. The count never falls, and stands still at 2^64 - 1.
    ghost faults: { Self → ℕ };

    /// Moves the next bytes to the buffer's start, and answers how many. Where the buffer has room, 0 is the end.
    fn read(&mut self, into: &mut [u8]) -> Result<usize, Failed>
        ensures moves { Moves result into.new (left self.old) (left self.new) }
        ensures counts { SinkCounts result (faults self.old) (faults self.new) };
}
