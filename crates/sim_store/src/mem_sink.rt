//! A sink in memory, which keeps what it is told. Whoever wants the text of a program without a terminal, tests above
//! all, hands it in; its room makes a full disk at any place, and its list of calls makes any write fail.

ghost use Rattle.sim_store.specs.{Pieces.AddsWhole, Sink.SinkCounts};
ghost use Rattle.std.specs.Prelude.{◌≡◌, ◌+◌, ◌≤◌, ◌↔◌, [], ◌∷◌, ◌++◌, length, IfOk, OnOk, OnErr, IsOk, IsFalse, Some, vec_len, vec_capacity};

use crate::{Calls, Failed, Sink, one_more};
use sim_base::{Global, OutOfMemory};

/// Takes bytes until its room is full.
#[derive(Drop)]
pub struct MemSink {
    room: usize,
    told: Vec<u8>,
    faults: u64,
    calls: Calls,
    ghost within: { vec_len told ≤ room },
    ghost has_memory: { room ≤ vec_capacity told },
}

impl MemSink {
    ghost use Rattle.sim_store.specs.MemSink.{bytes_told, calls_of, failing_of, faults_of, room_in};

    /// A sink that was told nothing, with the memory for this many bytes.
    pub fn new(alloc: Global, room: usize) -> Result<MemSink, OutOfMemory>
        ensures told { IfOk result (λ sink. bytes_told sink ≡ []) }
        ensures room { IfOk result (λ sink. room_in sink ≡ room) }
        ensures faults { IfOk result (λ sink. faults_of sink ≡ 0) }
        ensures calls { IfOk result (λ sink. calls_of sink ≡ 0) }
        ensures failing { IfOk result (λ sink. failing_of sink ≡ []) }
    {
        Ok(MemSink {
            room,
            told: Vec::with_capacity(alloc, room)?,
            faults: 0,
            calls: Calls::new(alloc),
        })
    }

    /// The bytes that it was told.
    pub fn told(&self) -> &[u8]
        ensures { result.now ≡ bytes_told self.now }
    {
        &self.told
    }

    /// Lists a write to fail, by its number among those since the sink was made, the first being 1. Any number of writes
    /// may be listed.
    pub fn fail_at(&mut self, call: u64) -> Result<(), OutOfMemory>
        ensures ok { OnOk result (failing_of self.new ≡ failing_of self.old ++ call ∷ []) }
        ensures err { OnErr result (failing_of self.new ≡ failing_of self.old) }
        ensures calls { calls_of self.new ≡ calls_of self.old }
        ensures told { bytes_told self.new ≡ bytes_told self.old }
        ensures room { room_in self.new ≡ room_in self.old }
        ensures faults { faults_of self.new ≡ faults_of self.old }
    {
        self.calls.list(call)?;
        Ok(())
    }

    /// How many writes there were since the sink was made.
    pub fn calls(&self) -> u64
        ensures { result ≡ calls_of self.now }
    {
        self.calls.made()
    }
}

impl Sink for MemSink {
    ghost use Rattle.sim_store.specs.MemSink.{bytes_told, fails_next_of, faults_of, IsWrite, room_in};

    ghost told = { λ sink. Some (bytes_told sink) };

    ghost faults = { faults_of };

    /// Takes the whole piece, or fails where the call is listed or the piece is more than the room that is left. It takes
    /// no memory.
    fn write(&mut self, piece: &[u8]) -> Result<usize, Failed>
        ensures fits { IsOk result ↔ (IsFalse (fails_next_of self.old) × (length (bytes_told self.old) + length piece.now ≤ room_in self.old)) }
        ensures write { IsWrite self.old self.new }
        ensures adds { AddsWhole result piece.now (Some (bytes_told self.old)) (Some (bytes_told self.new)) }
        ensures counts { SinkCounts result (faults_of self.old) (faults_of self.new) }
    {
        if self.calls.count() || piece.len() > self.room - self.told.len() {
            self.faults = one_more(self.faults);
            return Err(Failed);
        }
        self.told.extend_from_slice(piece).unwrap();
        Ok(piece.len())
    }
}
