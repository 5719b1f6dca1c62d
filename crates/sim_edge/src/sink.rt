//! The sink of a writer, be it standard output or another, and a count of what failed.

ghost use Rattle.{sim_edge.specs.Answers.Writes, sim_store.specs.Pieces.Adds, sim_store.specs.Sink.SinkCounts};

use crate::again::write_again;
use crate::device::Writable;
use crate::faults::taken;
use sim_store::{Failed, Sink, one_more};

/// One write of a piece, made again where a signal interrupts it, and how much of the piece it took.
pub fn write_to<W: Writable>(file: &mut W, piece: &[u8]) -> Result<usize, Failed>
    ensures answer { Writes W.write_gives piece.now file.old result file.new }
    ensures adds { Adds result piece.now (W.holds file.old) (W.holds file.new) }
{
    taken(write_again(file, piece), piece)
}

/// Standard output, or any other writer.
#[derive(Drop)]
pub struct OutSink<W: Writable + Drop> {
    writer: W,
    faults: u64,
}

impl<W: Writable + Drop> OutSink<W> {
    /// Nothing was written yet.
    pub fn new(writer: W) -> OutSink<W> {
        OutSink { writer, faults: 0 }
    }
}

impl<W: Writable + Drop> Sink for OutSink<W> {
    ghost told = { λ s. W.holds s.writer };

    ghost faults = { λ s. s.faults };

    /// Writes to the writer, and again where a signal interrupts that.
    fn write(&mut self, piece: &[u8]) -> Result<usize, Failed>
        ensures answer { Writes W.write_gives piece.now self.old.writer result self.new.writer }
        ensures adds { Adds result piece.now (W.holds self.old.writer) (W.holds self.new.writer) }
        ensures counts { SinkCounts result self.old.faults self.new.faults }
    {
        let answer = write_to(&mut self.writer, piece);
        if answer.is_err() {
            self.faults = one_more(self.faults);
        }
        answer
    }
}
