//! How many commands each player has in each turn. A table has the counts ready, so that the commands of a file are
//! counted in as many steps as there are commands.

ghost use Rattle.std.specs.Prelude.{◌≡◌, ◌≤◌, List, [], length, IfOk};
ghost use Rattle.sim_setup.specs.{Common.Timed, Crowds.Counts, Crowds.Covers, Crowds.Tallies};

use sim_base::{Global, OutOfMemory};
use std::marker::Model;

// A player may give so many commands in one turn.
const MOST: u8 = 64;

// A turn takes a count for Gaia, which stays 0, and for eight players.
const OWNERS: usize = 9;

/// The counts by turn, and then by player, which contracts see as a list.
#[derive(Debug, Drop)]
pub struct Crowd {
    counts: Vec<u8>,
}

impl Model for Crowd {
    ghost use Rattle.std.specs.Prelude.{ℕ, List};

    ghost Value = { List ℕ };

    ghost view = { λ crowd. crowd.counts.items };
}

impl Crowd {
    /// No command yet, in any turn up to this one.
    #[tactic(auto, using(crate::proofs::CommandLimits::no_tallies))]
    pub fn new(alloc: Global, turns: u32) -> Result<Crowd, OutOfMemory>
        requires { turns ≤ 65535 }
        ensures none { IfOk result (λ table. Tallies table []) }
        ensures covers { IfOk result (λ table. Covers table turns) }
    {
        Ok(Crowd {
            counts: vec![in alloc; 0u8; (turns as usize + 1) * OWNERS]?,
        })
    }

    /// Counts one more command of the player in the turn, if he has fewer than 64 there.
    pub fn admit(&mut self, turn: u32, player: u8) -> bool
        requires covers { Covers self.old turn }
        requires player { player ≤ 8 }
        ensures counts { (done : List Timed) → Tallies self.old done → Counts result turn player self.new done }
        ensures size { length self.new ≡ length self.old }
    {
        count_one(self.counts.as_mut_slice(), turn, player)
    }
}

fn count_one(counts: &mut [u8], turn: u32, player: u8) -> bool
    requires covers { Covers counts.old turn }
    requires player { player ≤ 8 }
    ensures { (done : List Timed) → Tallies counts.old done → Counts result turn player counts.new done }
{
    let place = turn as usize * OWNERS + player as usize;
    let count = counts[place];
    if count < MOST {
        counts[place] = count + 1;
        true
    } else {
        false
    }
}
