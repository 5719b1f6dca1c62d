//! MD5 of bytes that come in small pieces. The pieces are gathered first, so that the hash is handed few large ones:
//! most of what a small piece costs it is bookkeeping.

ghost use Rattle.{md5.specs.Md5.md5, sim_bytes.specs.Digesting.Gathers};
ghost use Rattle.std.specs.Prelude.{◌≡◌, ℕ, List, []};

use crate::{Buffer, ByteSink};
use md5::{Digest, Md5};
use std::convert::Infallible;

// How many bytes are gathered. It is a multiple of 64, which the hash takes at a time.
const ROOM: usize = 1024;

/// MD5 of the bytes that it is told.
#[derive(Drop)]
pub struct Digesting {
    pub hasher: Md5,
    pub waiting: Buffer<1024>,
}

impl Digesting {
    /// Nothing was told.
    pub fn new() -> Digesting
        ensures { Gathers result [] }
    {
        Digesting {
            hasher: Md5::new(),
            waiting: Buffer::new(),
        }
    }

    /// MD5 of what was told.
    pub fn finalize(self) -> [u8; 16]
        ensures { (told : List ℕ) → Gathers self told → result ≡ md5 told }
    {
        let Digesting {
            mut hasher,
            waiting,
        } = self;
        hasher.update(waiting.bytes());
        hasher.finalize()
    }

    // Hands on what is waiting. It is kept out of line, and is not handed the piece that is told, so that small pieces go
    // from registers into the room.
    #[inline(never)]
    fn flush(&mut self)
        ensures same { (told : List ℕ) → Gathers self.old told → Gathers self.new told }
        ensures empty { self.new.waiting ≡ [] }
    {
        self.hasher.update(self.waiting.bytes());
        self.waiting.clear();
    }
}

impl ByteSink for Digesting {
    type Fault = Infallible;

    ghost use Rattle.sim_bytes.specs.Digesting.{Gathers};

    ghost holds = { λ digesting about told. Gathers digesting told };

    #[inline]
    fn tell(&mut self, bytes: &[u8]) -> Result<(), Infallible> {
        if bytes.len() > ROOM {
            self.flush();
            self.hasher.update(bytes);
            return Ok(());
        }
        if bytes.len() > self.waiting.room() {
            self.flush();
        }
        self.waiting.add(bytes);
        Ok(())
    }
}
