//! What bytes are read from and written to. Std's traits say which bytes a call moves, and not which answer it gives. These two
//! also name the answer, so that a function over them is held to what it was answered.

ghost use Rattle.std.specs.{Io.ReadsAtMost, Io.WritesAtMost, Io.KnownBytes.ReadConsumes, Io.KnownBytes.WriteAppends, declared.io.Error.Error};
ghost use Rattle.std.specs.Prelude.{ℕ, List, Option, Result};

use std::io;
use std::io::{Read, Write};

/// Bytes are read from it. Each of std's readers is one, of whose answers nothing is known but how they move its bytes.
pub trait Readable {
    /// The bytes that reads will give from here on, where they are known.
    ghost left: { Self → Option (List ℕ) };

    /// Whether a read may answer so: what is read and the buffer before, the answer, and both after.
    ghost read_gives: { Self → List ℕ → Result ℕ Error → Self → List ℕ → Type 0 };

    /// One read of the system.
    fn read_once(&mut self, into: &mut [u8]) -> io::Result<usize>
        ensures gives { read_gives self.old into.old result self.new into.new }
        ensures bound { ReadsAtMost result into.new }
        ensures bytes { ReadConsumes (left self.old) (left self.new) result into.new };
}

/// Bytes are written to it. Each of std's writers is one, as its readers are.
pub trait Writable {
    /// The bytes that it holds, where they are known.
    ghost holds: { Self → Option (List ℕ) };

    /// Whether a write may answer so: what is written to before, the piece, the answer, and what is written to after.
    ghost write_gives: { Self → List ℕ → Result ℕ Error → Self → Type 0 };

    /// One write of the system.
    fn write_once(&mut self, piece: &[u8]) -> io::Result<usize>
        ensures gives { write_gives self.old piece.now result self.new }
        ensures bound { WritesAtMost result piece.now }
        ensures bytes { WriteAppends (holds self.old) (holds self.new) result piece.now };
}

impl<R: Read> Readable for R {
    ghost left = { λ r. R.remaining r };

    ghost read_gives = { λ _ _ _ _ _. Unit {0} };

    fn read_once(&mut self, into: &mut [u8]) -> io::Result<usize> {
        self.read(into)
    }
}

impl<W: Write> Writable for W {
    ghost holds = { λ w. W.contents w };

    ghost write_gives = { λ _ _ _ _. Unit {0} };

    fn write_once(&mut self, piece: &[u8]) -> io::Result<usize> {
        self.write(piece)
    }
}
