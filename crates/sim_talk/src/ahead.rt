//! Bytes that were read and not heard yet: an input gives whole pieces, and a line ends within one. They stand apart from the
//! input, so that what a line takes of them is said and proved over lists alone.

ghost use Rattle.std.specs.Prelude.{◌≡◌, ℕ, ◌<◌, ◌≤◌, ◌↔◌, ◌≢◌, [], length, IsFalse, IfOk, OnErr, slice_index, vec_len, vec_capacity};
ghost use Rattle.sim_talk.specs.Lines.{IsWithinLine, Pours};

use std::alloc::{AllocError, Global};

/// How many bytes are asked for at once.
pub const PIECE: usize = 4096;

/// What became of a line to which bytes were added.
#[derive(Clone, Copy, Debug, PartialEq, Eq)]
pub enum Poured {
    /// It has come to its end.
    Whole,
    /// All bytes were added, and it goes on.
    Open,
    /// It is longer than it may be.
    TooLong,
}

/// The bytes of a piece, and how many of them were heard. It has the memory for a piece from the beginning.
#[derive(Drop)]
pub struct Ahead {
    bytes: Vec<u8>,
    at: usize,
    ghost within: { at ≤ vec_len bytes },
    ghost has_memory: { 4096 ≤ vec_capacity bytes },
}

impl Ahead {
    ghost use Rattle.sim_talk.specs.Ahead.{bytes_ahead};

    /// No bytes.
    pub fn new(alloc: Global) -> Result<Ahead, AllocError>
        ensures { IfOk result (λ ahead. bytes_ahead ahead ≡ []) }
    {
        let bytes = Vec::with_capacity(alloc, PIECE)?;
        Ok(Ahead { bytes, at: 0 })
    }

    /// Holds these bytes, in place of those before. It takes no memory.
    pub fn hold(&mut self, piece: &[u8])
        requires { length piece.now ≤ 4096 }
        ensures { bytes_ahead self.new ≡ piece.now }
    {
        self.at = 0;
        self.bytes.clear();
        self.bytes.extend_from_slice(piece).unwrap();
    }

    /// Whether the end of a line stands in them.
    pub fn has_end(&self) -> bool
        ensures { IsFalse result ↔ IsWithinLine (bytes_ahead self.now) }
    {
        let left = &self.bytes[self.at..];
        feed_in(left) < left.len()
    }

    /// Adds the bytes up to the first line feed to the line, and takes the line feed with them, unless the line would be longer
    /// than this. Without memory nothing is taken.
    pub fn pour(&mut self, most: usize, line: &mut Vec<u8>) -> Result<Poured, AllocError>
        requires { length line.old.items ≤ most }
        ensures ok { IfOk result (λ poured. Pours poured most (bytes_ahead self.old) line.old.items (bytes_ahead self.new) line.new.items) }
        ensures err { OnErr result (bytes_ahead self.new ≡ bytes_ahead self.old) }
        ensures line { OnErr result (line.new.items ≡ line.old.items) }
    {
        let left = &self.bytes[self.at..];
        let count = feed_in(left);
        if count > most - line.len() {
            self.at += count;
            return Ok(Poured::TooLong);
        }
        let ends = count < left.len();
        line.extend_from_slice(&left[..count])?;
        self.at += count;
        if ends {
            self.at += 1;
            return Ok(Poured::Whole);
        }
        Ok(Poured::Open)
    }
}

// Where the first line feed stands, or how many bytes there are where none does.
fn feed_in(bytes: &[u8]) -> usize
    ensures within { result ≤ length bytes.now }
    ensures before { (k : ℕ) → k < result → slice_index bytes.now k ≢ 10 }
    ensures found { result < length bytes.now → slice_index bytes.now result ≡ 10 }
{
    for (index, byte) in bytes.iter().enumerate() {
        if *byte == b'\n' {
            return index;
        }
    }
    bytes.len()
}
