//! What was read of a log so far.

ghost use Rattle.std.specs.Prelude.{count_by, IfOk, if◌then◌else◌, length, nat_lt, ◌≡◌};
ghost use Rattle.sim_replay.specs.Logs.{ids_in as ids_in_command, is_by, log_in, may_have, nothing, taken, taken_order, taken_other, with_digest, with_order};

use crate::log::{Digests, Log, Orders, Turns};
use crate::spelled::{digest_in, order_in};
use sim_base::{Command, Global, Items, OutOfMemory, PlayerCommand, Setup};

/// The turns that are at their end, turn 0 first, with their digests, and the commands of the next one so far.
#[derive(Drop)]
pub struct Reading {
    turns: Turns,
    digests: Digests,
    orders: Orders,
}

impl Reading {
    /// Nothing is read.
    pub fn new(alloc: Global) -> Reading
        ensures { result ≡ nothing }
    {
        Reading {
            turns: Items::new(alloc),
            digests: Items::new(alloc),
            orders: Items::new(alloc),
        }
    }

    /// What is read after this line, or None where no log goes on with it.
    #[tactic(auto, unfolding(crate::specs::Logs::taken))]
    pub fn after(
        self,
        alloc: Global,
        setup: &Setup,
        line: &[u8],
    ) -> Result<Option<Reading>, OutOfMemory>
        ensures { IfOk result (λ next. next ≡ taken setup.now self line.now) }
    {
        let Some(turn) = self.next_turn(setup) else {
            return Ok(None);
        };
        match digest_in(alloc, turn, line)? {
            Some(digest) => Ok(Some(self.with_digest(alloc, digest)?)),
            None => self.after_other(alloc, setup, turn, line),
        }
    }

    // The turn that is not at its end yet, where the match has it.
    fn next_turn(&self, setup: &Setup) -> Option<u32>
        ensures { result ≡ (if nat_lt setup.now.turns (length self.now.digests) then None else Some (length self.now.digests)) }
    {
        let last = setup.turns;
        match u32::try_from(self.digests.as_slice().len()) {
            Ok(turn) if turn <= last => Some(turn),
            Ok(_) | Err(_) => None,
        }
    }

    fn after_other(
        self,
        alloc: Global,
        setup: &Setup,
        turn: u32,
        line: &[u8],
    ) -> Result<Option<Reading>, OutOfMemory>
        requires { turn ≡ length self.digests }
        ensures { IfOk result (λ next. next ≡ taken_other setup.now self line.now) }
    {
        match order_in(alloc, turn, line)? {
            Some(order) => self.after_order(setup, order),
            None => Ok(None),
        }
    }

    fn after_order(
        self,
        setup: &Setup,
        order: PlayerCommand,
    ) -> Result<Option<Reading>, OutOfMemory>
        ensures { IfOk result (λ next. next ≡ taken_order setup.now self order) }
    {
        if self.digests.as_slice().is_empty() || !self.may_have(setup, &order) {
            return Ok(None);
        }
        Ok(Some(self.with_order(order)?))
    }

    // Whether the player is one of the match, names few ids, and has fewer than 64 commands in the turn.
    #[tactic(auto, unfolding(crate::specs::Logs::may_have))]
    fn may_have(&self, setup: &Setup, order: &PlayerCommand) -> bool
        ensures { result ≡ may_have setup.now self.now.orders order.now }
    {
        1 <= order.player
            && order.player <= setup.players
            && ids_in(&order.command) <= 256
            && self.orders_by(order.player) < 64
    }

    fn orders_by(&self, player: u8) -> usize
        ensures { result ≡ count_by (is_by player) self.now.orders }
    {
        let orders = self.orders.as_slice();
        orders.iter().filter(|order| order.player == player).count()
    }

    fn with_digest(self, alloc: Global, digest: [u8; 16]) -> Result<Reading, OutOfMemory>
        ensures { IfOk result (λ next. next ≡ with_digest self digest) }
    {
        let Reading {
            mut turns,
            mut digests,
            orders,
        } = self;
        turns.push(orders)?;
        digests.push(digest)?;
        Ok(Reading {
            turns,
            digests,
            orders: Items::new(alloc),
        })
    }

    fn with_order(self, order: PlayerCommand) -> Result<Reading, OutOfMemory>
        ensures { IfOk result (λ next. next ≡ with_order self order) }
    {
        let Reading {
            turns,
            digests,
            mut orders,
        } = self;
        orders.push(order)?;
        Ok(Reading {
            turns,
            digests,
            orders,
        })
    }

    /// The log, where it is at the end of a turn.
    pub fn into_log(self) -> Option<Log>
        ensures { result ≡ log_in self }
    {
        let Reading {
            mut turns,
            digests,
            orders,
        } = self;
        if digests.as_slice().is_empty() || !orders.as_slice().is_empty() {
            return None;
        }
        if !turns.as_slice().is_empty() {
            turns.remove(0);
        }
        Some(Log { turns, digests })
    }
}

// How many ids a command has.
fn ids_in(command: &Command) -> usize
    ensures { result ≡ ids_in_command command.now }
{
    match command {
        Command::Walk { ids, .. }
        | Command::Stop { ids }
        | Command::Attack { ids, .. }
        | Command::Delete { ids } => ids.as_slice().len(),
        Command::Place { .. } | Command::Train { .. } | Command::Resign => 0,
    }
}
