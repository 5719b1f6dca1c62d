//! The frames of what a client says, one behind another, until they are sent.

ghost use Rattle.std.specs.{List.flat_map, Prelude.All, Prelude.IsOk, Prelude.OnOk, Prelude.[], Prelude.◌++◌, Prelude.◌≡◌};
ghost use Rattle.{sim_held.specs.Clients.frames_of, sim_wire.specs.Reading.IsSmallUp, sim_wire.specs.Reading.up_frame};

use sim_base::{Global, OutOfMemory};
use sim_wire::{Up, frame_up};
use std::marker::Model;

/// Bytes that wait to be sent, which contracts see as their list.
#[derive(Drop)]
pub struct Outbox {
    alloc: Global,
    bytes: Vec<u8>,
}

impl Model for Outbox {
    ghost use Rattle.std.specs.Prelude.{ℕ, List};

    ghost Value = { List ℕ };

    ghost view = { λ o. o.bytes.items };
}

impl Outbox {
    /// An empty one. It takes no memory.
    pub fn new(alloc: Global) -> Outbox
        ensures { result ≡ [] }
    {
        Outbox {
            alloc,
            bytes: Vec::new(alloc),
        }
    }

    /// The bytes that wait.
    pub fn bytes(&self) -> &[u8]
        ensures { result.now ≡ self.now }
    {
        &self.bytes
    }

    /// Lets all bytes go. The room is kept.
    pub fn clear(&mut self)
        ensures { self.new ≡ [] }
    {
        self.bytes.clear();
    }

    /// Takes the bytes out.
    pub fn take(&mut self) -> Vec<u8>
        ensures bytes { result.items ≡ self.old }
        ensures empty { self.new ≡ [] }
    {
        let empty = Vec::new(self.alloc);
        std::mem::replace(&mut self.bytes, empty)
    }

    /// Puts the frame of a message behind all that waits.
    pub fn push(&mut self, up: &Up) -> Result<(), OutOfMemory>
        requires { IsSmallUp up.now }
        ensures { OnOk result (self.new ≡ self.old ++ up_frame up.now) }
    {
        let frame = frame_up(self.alloc, up)?;
        self.bytes.extend_from_slice(&frame)?;
        Ok(())
    }

    /// Puts the frames of messages behind all that waits, in order.
    pub fn push_all(&mut self, ups: &[Up]) -> Result<(), OutOfMemory>
        requires { All IsSmallUp ups.now }
        ensures pushed { OnOk result (self.new ≡ self.old ++ frames_of ups.now) }
        ensures none { ups.now ≡ [] → IsOk result }
    {
        for up in ups {
            self.push(up)?;
        }
        Ok(())
    }
}
