//! One read and one write. A signal may interrupt either before it has moved anything; then it is made again.

ghost use Rattle.std.specs.{Io.ReadsAtMost, Io.WritesAtMost, Io.KnownBytes.ReadConsumes, Io.KnownBytes.WriteAppends, Prelude.◌↔◌, Prelude.IsTrue};
ghost use Rattle.sim_edge.specs.Again.{AnswersIn, IsInterrupted, read_call, write_call};

use crate::device::{Readable, Writable};
use std::io;
use std::io::ErrorKind;

/// How often a call that a signal interrupts is made again.
pub const TRIES: usize = 1000;

/// One read, made again where a signal interrupted it.
pub fn read_again<R: Readable>(file: &mut R, into: &mut [u8]) -> io::Result<usize>
    ensures answer { AnswersIn (read_call R.read_gives) TRIES (file.old, into.old) result (file.new, into.new) }
    ensures bound { ReadsAtMost result into.new }
    ensures bytes { ReadConsumes (R.left file.old) (R.left file.new) result into.new }
{
    for _ in 0..TRIES {
        let answer = file.read_once(into);
        if !is_interrupted(&answer) {
            return answer;
        }
    }
    file.read_once(into)
}

/// One write, made again where a signal interrupted it.
pub fn write_again<W: Writable>(file: &mut W, piece: &[u8]) -> io::Result<usize>
    ensures answer { AnswersIn (write_call W.write_gives piece.now) TRIES file.old result file.new }
    ensures bound { WritesAtMost result piece.now }
    ensures bytes { WriteAppends (W.holds file.old) (W.holds file.new) result piece.now }
{
    for _ in 0..TRIES {
        let answer = file.write_once(piece);
        if !is_interrupted(&answer) {
            return answer;
        }
    }
    file.write_once(piece)
}

// Whether a signal came before the call had moved anything.
fn is_interrupted(answer: &io::Result<usize>) -> bool
    ensures { IsTrue result ↔ IsInterrupted answer.now }
{
    match answer {
        Ok(_) => false,
        Err(error) => error.kind() == ErrorKind::Interrupted,
    }
}
