//! A match that is held in memory, for a game without a network and for replays.

ghost use Rattle.{sim_base.specs.Turn.first_state as first_state_of, sim_embed.specs.{Bytes.{OfMatch, OfState}, Causes.{IsNoMatch, IsNoStateOf}}};
ghost use Rattle.{sim_embed.specs.Facts.{entity_of, IsStamp, IsStored}, sim_held.specs.Games.{PlaysGame, PlaysOwnTurns}, sim_report.specs.Show.show_text};
ghost use Rattle.std.specs.Prelude.{IfErr, IfOk, map, string_bytes, ◌≡◌};

use crate::boards::{after_own, after_turn, first_state};
use crate::copying::copy_of;
use sim_base::{Global, OutOfMemory, Setup, State};
use sim_embed::{
    Entity, Refused, Stamp, Stored, commands_of, entities_of, match_of, state_of, text_of,
};
use sim_ground::Contents;
use std::marker::Model;

/// A match, and the state to which it has come, with what the rooms of its ground held at the end of the last call. After want of memory
/// match and state are as they were.
#[derive(Drop)]
pub struct HeldMatch {
    alloc: Global,
    setup: Setup,
    state: State,
    kept: Contents,
}

impl Model for HeldMatch {
    ghost use Rattle.sim_held.specs.Games.{GameView, IsGame};

    ghost Value = { GameView };

    ghost view = { λ g. record { setup = g.setup; state = g.state } };

    ghost invariant = { λ g. IsGame g.setup g.state };
}

impl HeldMatch {
    /// The match that bytes are, at its first state.
    pub fn new(alloc: Global, game: &[u8]) -> Result<HeldMatch, Refused>
        ensures is { IfOk result (λ held. OfMatch game.now (λ setup. held ≡ record { setup = setup; state = first_state_of setup })) }
        ensures refused { IfErr result (IsNoMatch game.now) }
    {
        let setup = match_of(alloc, game)?;
        let state = first_state(alloc, &setup)?;
        Ok(HeldMatch {
            alloc,
            setup,
            state,
            kept: Contents::new(),
        })
    }

    /// The match that bytes are, at the state that others stand for.
    pub fn load(alloc: Global, game: &[u8], bytes: &[u8]) -> Result<HeldMatch, Refused>
        ensures is { IfOk result (λ held. OfState game.now bytes.now (λ setup state. held ≡ record { setup = setup; state = state })) }
        ensures refused { IfErr result (IsNoStateOf game.now bytes.now) }
    {
        let setup = match_of(alloc, game)?;
        let state = state_of(alloc, &setup, bytes, 0)?;
        Ok(HeldMatch {
            alloc,
            setup,
            state,
            kept: Contents::new(),
        })
    }

    /// Plays a turn with the commands that bytes spell: a list in JSON, each item a player, the kind and what follows it.
    pub fn play(&mut self, commands: &[u8]) -> Result<(), Refused>
        ensures { PlaysGame commands.now self.old result self.new }
    {
        if self.setup.turns <= self.state.turn {
            return Err(Refused::Over);
        }
        let orders = commands_of(self.alloc, self.setup.players, commands)?;
        let old = copy_of(self.alloc, &self.state)?;
        self.state = after_turn(self.alloc, &self.setup, old, &orders, &mut self.kept)?;
        Ok(())
    }

    /// Plays the match's own turns, at most so many, and answers how many there were. The systems are made once for all of them.
    pub fn play_own(&mut self, most: u32) -> Result<u32, OutOfMemory>
        ensures { PlaysOwnTurns most self.old result self.new }
    {
        let first = self.state.turn;
        let turns = most.min(self.setup.turns.saturating_sub(first));
        if turns == 0 {
            return Ok(0);
        }
        let old = copy_of(self.alloc, &self.state)?;
        self.state = after_own(self.alloc, &self.setup, old, first + turns, &mut self.kept)?;
        Ok(turns)
    }

    /// The match.
    pub fn setup(&self) -> &Setup
        ensures { result.now ≡ self.now.setup }
    {
        &self.setup
    }

    /// The state.
    pub fn state(&self) -> &State
        ensures { result.now ≡ self.now.state }
    {
        &self.state
    }

    /// The digest and the turn of the state.
    pub fn stamp(&self) -> Stamp
        ensures { IsStamp self.now.setup self.now.state result }
    {
        Stamp::of(&self.setup, &self.state)
    }

    /// The bytes of the state, and their digest.
    pub fn stored(&self) -> Result<Stored, OutOfMemory>
        ensures { IfOk result (IsStored self.now.setup self.now.state) }
    {
        Stored::of(self.alloc, &self.setup, &self.state)
    }

    /// The entities of the state, in their order.
    pub fn entities(&self) -> Result<Vec<Entity>, OutOfMemory>
        ensures { IfOk result (λ found. found.items ≡ map entity_of self.now.state.rows) }
    {
        entities_of(self.alloc, self.state.rows.as_slice())
    }

    /// The state as text: a line of its clock, and one of each row.
    pub fn show(&self) -> Result<String, OutOfMemory>
        ensures { IfOk result (λ text. string_bytes text ≡ show_text self.now.setup self.now.state) }
    {
        text_of(self.alloc, &self.setup, &self.state)
    }
}
