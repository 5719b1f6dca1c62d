//! What a client hears.

ghost use Rattle.std.specs.Prelude.{IsOk, None, Option, true, ◌≡◌};
ghost use Rattle.sim_client.specs.ClientWords.{Answers, Begins, Builds, Hears, is_idle, IsSound, life, LoadsAt, setup_in, systems, Waits};
ghost use Rattle.sim_client.specs.Lives.{Joining, begins, loads};
ghost use Rattle.{sim_base.specs.Limits.IsValid, sim_base.specs.declared.state.State.State as AnyState, sim_board.specs.Boards.AreKept};

use super::Client;
use crate::did::{Did, silent};
use crate::playing::{begin, heed};
use crate::stage::Stage;
use sim_base::{OutOfMemory, State};
use sim_codec::{StateFault, load};
use sim_system::System;
use sim_wire::Down;

impl Client<'_> {
    /// Hears what the server says. Bytes that stand for no state are found out without memory.
    pub fn hear(&mut self, down: Down) -> Result<Did, OutOfMemory>
        requires sound { IsSound self.old ⟦<dyn System as System>⟧ }
        ensures { Hears ⟦<dyn System as System>⟧ (life self.old) down result self.old self.new }
    {
        match &mut self.stage {
            Stage::Off => Ok(Did::Idle),
            Stage::Joining => self.hear_joining(down),
            Stage::On { seat } => match &self.board {
                Some(board) => heed(self.alloc, self.setup, board.scene().state, seat, down),
                None => Ok(Did::Idle),
            },
        }
    }

    // One that waits for a state hears a message.
    fn hear_joining(&mut self, down: Down) -> Result<Did, OutOfMemory>
        requires { Waits ⟦<dyn System as System>⟧ self.old }
        ensures { Hears ⟦<dyn System as System>⟧ Joining down result self.old self.new }
    {
        match down {
            Down::State { done, bytes } => self.hear_state(done, bytes.as_slice()),
            // The answer to its wish to join: it is off.
            Down::Refused { code: 4 } => {
                self.stage = Stage::Off;
                Ok(silent(self.alloc))
            }
            Down::Refused { .. } => Ok(Did::Idle),
            Down::Ask { .. } => Ok(Did::Idle),
            Down::Command { .. } => Ok(Did::Idle),
            Down::Release { .. } => Ok(Did::Idle),
            Down::Notice { .. } => Ok(Did::Idle),
        }
    }

    // One that waits for a state is given the bytes of one. What does not load has no effect.
    fn hear_state(&mut self, done: u32, bytes: &[u8]) -> Result<Did, OutOfMemory>
        requires { Waits ⟦<dyn System as System>⟧ self.old }
        ensures answers { (loaded : Option AnyState) → LoadsAt (setup_in self.old) bytes.now loaded → Answers (loads done loaded) Joining result
            (life self.new) }
        ensures stateless { LoadsAt (setup_in self.old) bytes.now None → IsOk result }
        ensures unloaded { is_idle result ≡ true → AreKept (systems self.old ⟦<dyn System as System>⟧) (systems self.new ⟦<dyn System as System>⟧) }
        ensures ends { Builds ⟦<dyn System as System>⟧ result self.old self.new }
    {
        match load(self.alloc, self.setup, bytes) {
            Ok(state) => {
                self.adopt(done, state)?;
                Ok(silent(self.alloc))
            }
            Err(StateFault::OutOfMemory) => Err(OutOfMemory),
            Err(StateFault::NotState) => Ok(Did::Idle),
            Err(StateFault::OtherMatch) => Ok(Did::Idle),
            Err(StateFault::Grammar) => Ok(Did::Idle),
        }
    }

    // It is on at a state. The released turns that it knows are those up to that state.
    fn adopt(&mut self, done: u32, state: State) -> Result<(), OutOfMemory>
        requires waits { Waits ⟦<dyn System as System>⟧ self.old }
        requires valid { IsValid (setup_in self.old) state }
        ensures { Begins ⟦<dyn System as System>⟧ (begins state state.turn done) result self.old self.new }
    {
        let Some(board) = &mut self.board else {
            return Ok(());
        };
        let released = state.turn;
        board.adopt(state)?;
        self.stage = Stage::On {
            seat: begin(self.alloc, released, done),
        };
        Ok(())
    }
}
