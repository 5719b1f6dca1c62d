//! An input in memory. Whoever wants to talk to the program without a terminal, tests above all, hands it in: its bytes come in
//! pieces of any size, and its list of calls makes any read fail.

ghost use Rattle.std.specs.Prelude.{[], IfOk, IsFalse, IsOk, length, min, OnErr, OnOk, Some, vec_len, ◌++◌, ◌↔◌, ◌∷◌, ◌≡◌, ◌≤◌};
ghost use Rattle.sim_store.specs.{Pieces.Moves, Shelf.raised, Sink.SinkCounts};

use crate::source::Source;
use sim_base::{Global, OutOfMemory};
use sim_store::{Calls, Failed, one_more};

/// Bytes that come in pieces of at most so many.
#[derive(Drop)]
pub struct MemSource {
    bytes: Vec<u8>,
    at: usize,
    most: usize,
    faults: u64,
    calls: Calls,
    ghost within: { at ≤ vec_len bytes },
    ghost some: { 1 ≤ most },
}

impl MemSource {
    ghost use Rattle.sim_talk.specs.MemSource.{bytes_to_come, calls_of, failing_of, faults_in, most_in};

    /// An input of these bytes, in pieces of at most so many, or of one byte where none is asked for.
    pub fn new(alloc: Global, bytes: &[u8], most: usize) -> Result<MemSource, OutOfMemory>
        ensures left { IfOk result (λ source. bytes_to_come source ≡ bytes.now) }
        ensures faults { IfOk result (λ source. faults_in source ≡ 0) }
        ensures calls { IfOk result (λ source. calls_of source ≡ 0) }
        ensures failing { IfOk result (λ source. failing_of source ≡ []) }
    {
        Ok(MemSource {
            bytes: bytes.to_vec(alloc)?,
            at: 0,
            most: most.max(1),
            faults: 0,
            calls: Calls::new(alloc),
        })
    }

    /// Lists a read to fail, by its number among those since the input was made, the first being 1.
    pub fn fail_at(&mut self, call: u64) -> Result<(), OutOfMemory>
        ensures ok { OnOk result (failing_of self.new ≡ failing_of self.old ++ call ∷ []) }
        ensures err { OnErr result (failing_of self.new ≡ failing_of self.old) }
        ensures calls { calls_of self.new ≡ calls_of self.old }
        ensures left { bytes_to_come self.new ≡ bytes_to_come self.old }
        ensures most { most_in self.new ≡ most_in self.old }
        ensures faults { faults_in self.new ≡ faults_in self.old }
    {
        self.calls.list(call)?;
        Ok(())
    }
}

impl Source for MemSource {
    ghost use Rattle.sim_talk.specs.MemSource.{bytes_to_come, calls_of, failing_of, fails_next_of, faults_in, most_in};

    ghost left = { λ source. Some (bytes_to_come source) };

    ghost faults = { faults_in };

    /// Gives as many of the bytes as a piece has and the buffer takes, or fails where the call is listed.
    fn read(&mut self, into: &mut [u8]) -> Result<usize, Failed>
        ensures fits { IsOk result ↔ IsFalse (fails_next_of self.old) }
        ensures count { IfOk result (λ count. count ≡ min (min (length (bytes_to_come self.old)) (most_in self.old)) (length into.new)) }
        ensures calls { calls_of self.new ≡ raised 1 (calls_of self.old) }
        ensures failing { failing_of self.new ≡ failing_of self.old }
        ensures most { most_in self.new ≡ most_in self.old }
        ensures moves { Moves result into.new (Some (bytes_to_come self.old)) (Some (bytes_to_come self.new)) }
        ensures counts { SinkCounts result (faults_in self.old) (faults_in self.new) }
    {
        if self.calls.count() {
            self.faults = one_more(self.faults);
            return Err(Failed);
        }
        let left = &self.bytes[self.at..];
        let count = left.len().min(self.most).min(into.len());
        into[..count].copy_from_slice(&left[..count]);
        self.at += count;
        Ok(count)
    }
}
