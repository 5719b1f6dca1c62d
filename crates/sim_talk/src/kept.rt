//! Texts that were told and not written yet. They are kept while more is to be answered, and written in one piece, since a call of the
//! system costs more than a short answer. They stand apart from the sink, so that what is written of them is said over lists alone.

ghost use Rattle.sim_talk.specs.LineTalk.{SettlesTo, TellsTo};
ghost use Rattle.std.specs.Prelude.{◌≡◌, ◌+◌, ◌≤◌, ◌↔◌, [], ◌++◌, length, IsTrue, IfOk, vec_capacity};

use sim_store::{Failed, Sink, write_out};
use std::alloc::{AllocError, Global};

/// How many bytes are kept at most: 64 KiB.
pub const ROOM: usize = 65_536;

/// The bytes that are kept. It has the memory for all of them from the beginning.
#[derive(Drop)]
pub struct Kept {
    bytes: Vec<u8>,
    ghost has_memory: { 65536 ≤ vec_capacity bytes },
}

impl Kept {
    ghost use Rattle.sim_talk.specs.Kept.{bytes_kept};

    /// No bytes.
    pub fn new(alloc: Global) -> Result<Kept, AllocError>
        ensures { IfOk result (λ kept. bytes_kept kept ≡ []) }
    {
        let bytes = Vec::with_capacity(alloc, ROOM)?;
        Ok(Kept { bytes })
    }

    /// Tells a text: it is kept where there is room. Where there is none what is kept is written first, and a text that is longer than
    /// the room at once. It takes no memory. Where writing fails nothing is kept.
    pub fn tell<K: Sink>(&mut self, sink: &mut K, text: &[u8]) -> Result<(), Failed>
        ensures { TellsTo K.Sink result text.now (bytes_kept self.old) (bytes_kept self.new) sink.old sink.new }
    {
        if self.has_room(text) {
            self.add(text);
            return Ok(());
        }
        self.settle(sink)?;
        self.tell_alone(sink, text)
    }

    /// Writes all that is kept, or a beginning of it where that fails. Nothing is kept then.
    pub fn settle<K: Sink>(&mut self, sink: &mut K) -> Result<(), Failed>
        ensures settles { SettlesTo K.Sink result (bytes_kept self.old) sink.old sink.new }
        ensures kept { bytes_kept self.new ≡ [] }
    {
        let settled = write_whole(sink, &self.bytes);
        self.bytes.clear();
        settled
    }

    // Keeps a text where nothing is kept, or writes it where there is no room for it.
    fn tell_alone<K: Sink>(&mut self, sink: &mut K, text: &[u8]) -> Result<(), Failed>
        requires { bytes_kept self.old ≡ [] }
        ensures { TellsTo K.Sink result text.now [] (bytes_kept self.new) sink.old sink.new }
    {
        if self.has_room(text) {
            self.add(text);
            return Ok(());
        }
        write_whole(sink, text)
    }

    fn has_room(&self, text: &[u8]) -> bool
        ensures { IsTrue result ↔ length (bytes_kept self.now) + length text.now ≤ 65536 }
    {
        self.bytes.len() <= ROOM && text.len() <= ROOM - self.bytes.len()
    }

    // Keeps a text behind what is kept.
    fn add(&mut self, text: &[u8])
        requires { length (bytes_kept self.old) + length text.now ≤ 65536 }
        ensures { bytes_kept self.new ≡ bytes_kept self.old ++ text.now }
    {
        self.bytes.extend_from_slice(text).unwrap();
    }
}

// Writes all the bytes, or a beginning of them.
fn write_whole<K: Sink>(sink: &mut K, bytes: &[u8]) -> Result<(), Failed>
    ensures { SettlesTo K.Sink result bytes.now sink.old sink.new }
{
    match write_out(sink, bytes) {
        Ok(()) => Ok(()),
        Err(_) => Err(Failed),
    }
}
