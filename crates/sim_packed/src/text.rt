//! A sink in memory without a room: it keeps all that it is told, as long as there is memory.

ghost use Rattle.{sim_store.specs.Pieces.TakesSome, sim_store.specs.Sink.SinkCounts, std.specs.Io.KnownBytes.WriteAppends};
ghost use Rattle.std.specs.Prelude.{◌≡◌, [], Some};

use sim_store::{Failed, Sink, one_more};
use std::alloc::Global;

/// What was told, and how often there was no memory for more.
#[derive(Drop)]
pub struct Text {
    pub told: Vec<u8>,
    pub faults: u64,
}

impl Text {
    /// Nothing was told yet.
    pub fn new(alloc: Global) -> Text
        ensures told { result.told.items ≡ [] }
        ensures faults { result.faults ≡ 0 }
    {
        Text {
            told: Vec::new(alloc),
            faults: 0,
        }
    }
}

impl Sink for Text {
    ghost told = { λ text. Some text.told.items };

    ghost faults = { λ text. text.faults };

    /// Takes the whole piece, or fails where there is no memory for it.
    fn write(&mut self, piece: &[u8]) -> Result<usize, Failed>
        ensures takes { TakesSome result piece.now }
        ensures told { WriteAppends (Some self.old.told.items) (Some self.new.told.items) result piece.now }
        ensures counts { SinkCounts result self.old.faults self.new.faults }
    {
        if self.told.extend_from_slice(piece).is_err() {
            self.faults = one_more(self.faults);
            return Err(Failed);
        }
        Ok(piece.len())
    }
}
