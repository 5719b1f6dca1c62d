//! What a client has missed of a match as it loads a state: the commands that were kept, and how far the match has come.

ghost use Rattle.std.specs.Prelude.{[], IfOk, length, min, OnOk, ◌++◌, ◌-◌, ◌∷◌, ◌≡◌};
ghost use Rattle.sim_server.specs.{Common.Release, Common.kept_above, Common.posted_to, Standing.kept_in};

use crate::kept::{Orders, kept_of};
use crate::posts::{Post, Posts, one, push_orders};
use sim_base::{Global, OutOfMemory};
use sim_wire::Down;

/// The commands that were kept, by turn, how many turns the match has, and how many of them are released.
#[derive(Clone, Copy)]
pub struct Past<'a> {
    pub kept: &'a [Orders],
    pub turns: u32,
    pub released: u32,
}

impl Past<'_> {
    /// What a client is told that loads a state of this turn: the state, all kept commands above it, and the released turns.
    pub fn tell_loading(
        &self,
        alloc: Global,
        to: u8,
        turn: u32,
        state: Down,
    ) -> Result<Posts, OutOfMemory>
        ensures { IfOk result (λ posts. posts ≡ posted_to to
            (state ∷ (kept_above (kept_in self.now.kept.now) turn (self.now.turns - turn) ++ Release self.now.released ∷ []))) }
    {
        let mut posts = one(alloc, to, state)?;
        self.push_kept_above(&mut posts, to, turn)?;
        posts.push(Post {
            to,
            down: Down::Release {
                turn: self.released,
            },
        })?;
        Ok(posts)
    }

    fn push_kept_above(&self, posts: &mut Posts, to: u8, turn: u32) -> Result<(), OutOfMemory>
        ensures { OnOk result (posts.new ≡ posts.old ++ posted_to to (kept_above (kept_in self.now.kept.now) turn (self.now.turns - turn))) }
    {
        let count = self.last_kept().saturating_sub(turn);
        for i in 0..count {
            let at = turn + i + 1;
            push_orders(posts, to, at, kept_of(self.kept, at))?;
        }
        Ok(())
    }

    // The last turn of the match of which there is a list.
    fn last_kept(&self) -> u32
        ensures { result ≡ min self.now.turns (length self.now.kept.now - 1) }
    {
        let count = self.kept.len();
        if (self.turns as usize) < count {
            self.turns
        } else {
            (count as u32).saturating_sub(1)
        }
    }
}
