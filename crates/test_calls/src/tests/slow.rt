//! A shelf and a sink that move at most two bytes at a call, so that a whole file or text takes many. They tell nothing,
//! as the real ones do. Their calls, and the faults among them, are those of the shelf and the sink in memory below.

ghost use Rattle.{sim_store.specs.{MemShelf.{counts_on, is_making_on, is_open_on}, MemSink.faults_of}, std.specs.Prelude.{None, []}};

use sim_store::{Failed, MemShelf, MemSink, Shelf, ShelfFault, Sink};

/// The most bytes that are moved at once.
const MOST: usize = 2;

#[derive(Drop)]
pub struct SlowShelf {
    pub shelf: MemShelf,
}

impl Shelf for SlowShelf {
    ghost held = { λ _. None };

    ghost rest = { λ _. None };

    ghost is_open = { λ slow. is_open_on slow.shelf };

    ghost is_making = { λ slow. is_making_on slow.shelf };

    ghost made_name = { λ _. [] };

    ghost made = { λ _. None };

    ghost counts = { λ slow. counts_on slow.shelf };

    fn open(&mut self, name: &str) -> Result<bool, ShelfFault> {
        self.shelf.open(name)
    }

    fn read(&mut self, into: &mut [u8]) -> Result<usize, Failed> {
        let most = into.len().min(MOST);
        self.shelf.read(&mut into[..most])
    }

    fn make(&mut self, name: &str) -> Result<(), ShelfFault> {
        self.shelf.make(name)
    }

    fn write(&mut self, piece: &[u8]) -> Result<usize, Failed> {
        let most = piece.len().min(MOST);
        self.shelf.write(&piece[..most])
    }

    fn close(&mut self) -> Result<(), Failed> {
        self.shelf.close()
    }
}

#[derive(Drop)]
pub struct SlowSink {
    pub sink: MemSink,
}

impl Sink for SlowSink {
    ghost told = { λ _. None };

    ghost faults = { λ slow. faults_of slow.sink };

    fn write(&mut self, piece: &[u8]) -> Result<usize, Failed> {
        let most = piece.len().min(MOST);
        self.sink.write(&piece[..most])
    }
}
