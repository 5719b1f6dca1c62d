//! The input of a reader, be it standard input or another, and a count of what failed.

ghost use Rattle.{sim_edge.specs.Answers.ReadsOnce, sim_store.specs.Pieces.Moves, sim_store.specs.Sink.SinkCounts};

use crate::again::read_again;
use crate::device::Readable;
use sim_store::{Failed, one_more};
use sim_talk::Source;

/// Standard input, or any other reader.
#[derive(Drop)]
pub struct InSource<R: Readable + Drop> {
    reader: R,
    faults: u64,
}

impl<R: Readable + Drop> InSource<R> {
    /// Nothing was read yet.
    pub fn new(reader: R) -> InSource<R> {
        InSource { reader, faults: 0 }
    }
}

impl<R: Readable + Drop> Source for InSource<R> {
    ghost left = { λ s. R.left s.reader };

    ghost faults = { λ s. s.faults };

    /// Reads from the reader, and again where a signal interrupts that.
    fn read(&mut self, into: &mut [u8]) -> Result<usize, Failed>
        ensures answer { ReadsOnce R.read_gives self.old.reader into.old result self.new.reader into.new }
        ensures moves { Moves result into.new (R.left self.old.reader) (R.left self.new.reader) }
        ensures counts { SinkCounts result self.old.faults self.new.faults }
    {
        match read_again(&mut self.reader, into) {
            Ok(count) => Ok(count),
            Err(_) => {
                self.faults = one_more(self.faults);
                Err(Failed)
            }
        }
    }
}
