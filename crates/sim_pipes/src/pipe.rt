//! A pipe of frames, first in, first out.
//!
//! All frames stand in one list, so that those that wait can be lent as a slice. A frame that was taken leaves an empty
//! place in front. Once these are as many as the frames that wait, they are closed up, so that each frame is moved about
//! once, however many wait. The room of the list is kept.

ghost use Rattle.std.specs.Prelude.{◌≡◌, ◌≤◌, [], ◌∷◌, ◌++◌, length, drop, OnOk, OnErr};
ghost use Rattle.sim_pipes.specs.Pipes.{Takes};

use sim_base::{Global, Items, OutOfMemory};
use sim_wire::Bytes;
use std::marker::Model;

/// A pipe, which contracts see as the list of the frames that wait in it.
#[derive(Drop)]
pub struct Pipe {
    alloc: Global,
    frames: Vec<Bytes>,
    taken: usize,
}

impl Model for Pipe {
    ghost use Rattle.std.specs.Prelude.{ℕ, ◌≤◌, List, length, drop};

    ghost Value = { List (List ℕ) };

    ghost view = { λ p. drop p.taken p.frames.items };

    ghost invariant = { λ p. p.taken ≤ length p.frames.items };
}

// Closes up the empty places in front, if they are as many as the frames behind them, and answers how many there are then.
fn close_up(frames: &mut Vec<Bytes>, taken: usize) -> usize
    requires { taken ≤ length frames.old.items }
    ensures waiting { drop result frames.new.items ≡ drop taken frames.old.items }
    ensures within { result ≤ length frames.new.items }
{
    let waiting = frames.len() - taken;
    if taken < waiting {
        return taken;
    }
    frames.rotate_left(taken);
    frames.truncate(waiting);
    0
}

impl Pipe {
    /// An empty pipe. It takes no memory.
    pub fn new(alloc: Global) -> Pipe
        ensures { result ≡ [] }
    {
        Pipe {
            alloc,
            frames: Vec::new(alloc),
            taken: 0,
        }
    }

    /// The frames that wait, the first to be taken first.
    pub fn frames(&self) -> &[Bytes]
        ensures { result.now ≡ self.now }
    {
        &self.frames[self.taken..]
    }

    /// Puts a frame behind all that wait, or leaves the pipe as it was.
    pub fn push(&mut self, frame: Bytes) -> Result<(), OutOfMemory>
        ensures ok { OnOk result (self.new ≡ self.old ++ frame ∷ []) }
        ensures err { OnErr result (self.new ≡ self.old) }
    {
        self.frames.push(frame)?;
        Ok(())
    }

    /// Takes the first frame out, if there is one.
    pub fn take(&mut self) -> Option<Bytes>
        ensures { Takes self.old result self.new }
    {
        if self.taken == self.frames.len() {
            return None;
        }
        let empty = Items::new(self.alloc);
        let frame = std::mem::replace(&mut self.frames[self.taken], empty);
        self.taken = close_up(&mut self.frames, self.taken + 1);
        Some(frame)
    }

    /// Lets all frames go.
    pub fn clear(&mut self)
        ensures { self.new ≡ [] }
    {
        self.frames.clear();
        self.taken = 0;
    }
}
