//! A short list of bytes that is kept in place, where memory is not to be asked for: the bytes of one row, and bytes
//! that wait to be hashed.

ghost use Rattle.std.specs.Prelude.{◌≡◌, ◌+◌, ◌<◌, ◌≤◌, [], ◌++◌, length, OnOk};
ghost use Rattle.sim_bytes.specs.Telling.{RoomHolds, Tells};

use crate::sink::ByteSink;
use std::convert::Infallible;
use std::marker::Model;

/// At most `ROOM` bytes, kept in place, which contracts see as a list.
#[derive(Drop)]
pub struct Buffer<const ROOM: usize> {
    bytes: [u8; ROOM],
    count: usize,
}

impl<const ROOM: usize> Model for Buffer<ROOM> {
    ghost use Rattle.std.specs.Prelude.{ℕ, ◌≤◌, List, take};

    ghost Value = { List ℕ };

    ghost view = { λ buffer. take buffer.count buffer.bytes };

    ghost invariant = { λ buffer. buffer.count ≤ ROOM };
}

impl<const ROOM: usize> Buffer<ROOM> {
    /// No bytes.
    pub fn new() -> Buffer<ROOM>
        ensures { result ≡ [] }
    {
        Buffer {
            bytes: [0; ROOM],
            count: 0,
        }
    }

    /// Lends the bytes.
    pub fn bytes(&self) -> &[u8]
        ensures { result.now ≡ self.now }
    {
        &self.bytes[..self.count]
    }

    /// How many bytes more it can have.
    pub fn room(&self) -> usize
        ensures { length self.now + result ≡ ROOM }
    {
        ROOM - self.count
    }

    /// Adds bytes at the end.
    #[inline]
    pub fn add(&mut self, bytes: &[u8])
        requires { length self.old + length bytes.now ≤ ROOM }
        ensures { self.new ≡ self.old ++ bytes.now }
    {
        let end = self.count + bytes.len();
        let all = &mut self.bytes[..];
        all[self.count..end].copy_from_slice(bytes);
        self.count = end;
    }

    /// Lets all bytes go.
    pub fn clear(&mut self)
        ensures { self.new ≡ [] }
    {
        self.count = 0;
    }
}

/// What does not fit is passed over.
impl<const ROOM: usize> ByteSink for Buffer<ROOM> {
    type Fault = Infallible;

    ghost use Rattle.sim_bytes.specs.Telling.{RoomHolds};

    ghost holds = { RoomHolds ROOM };

    fn tell(&mut self, bytes: &[u8]) -> Result<(), Infallible>
        ensures ok { OnOk result (Tells (RoomHolds ROOM) self.old self.new bytes.now) }
        ensures full { ROOM < length self.old + length bytes.now → self.new ≡ self.old }
    {
        if bytes.len() <= self.room() {
            self.add(bytes);
        }
        Ok(())
    }
}
