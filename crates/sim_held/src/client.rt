//! A client that is held.

ghost use Rattle.{sim_board.specs.Boards.state_in, sim_client.specs.ClientWords.{is_joining, state_of, turn_of}, sim_embed.specs.Bytes.OfMatch};
ghost use Rattle.{sim_embed.specs.{Causes.IsNoMatch, Facts.{entity_of, IsStamp, IsStored}}, sim_held.specs.Clients.{done_of, HearsFrame, IsCutOff, IsNew}};
ghost use Rattle.{sim_held.specs.Clients.{IsSame, Joins, life, LooksAt, LooksAtClient, Orders, Plays, released_of}, sim_report.specs.Show.show_text};
ghost use Rattle.std.specs.Prelude.{IfErr, IfOk, map, option_copied, Some, string_bytes, [], ◌≡◌};

use crate::acting::{join, settle};
use crate::beginning::first_stage;
use crate::boards::play_seat;
use crate::outbox::Outbox;
use crate::playing::Playing;
use crate::reading::{hear_frame, order};
use crate::stage::{Stage, Went};
use sim_base::{Global, OutOfMemory, Setup, State};
use sim_embed::{Entity, Refused, Stamp, Stored, entities_of, match_of, text_of};
use sim_ground::Contents;
use std::marker::Model;

/// A client of a match for one of its players: off, waiting for a state, or on, with the bytes that wait to be sent to the server, and
/// with what the rooms of its ground held at the end of the last call that played.
///
/// After want of memory in a step it is off with nothing to be sent, as after `cut`; it may join again.
#[derive(Drop)]
pub struct HeldClient {
    alloc: Global,
    setup: Setup,
    number: u8,
    stage: Stage,
    outbox: Outbox,
    kept: Contents,
}

impl Model for HeldClient {
    ghost use Rattle.sim_held.specs.Clients.{ClientView, IsSound};

    ghost Value = { ClientView };

    ghost use Rattle.sim_held.specs.contracts.stage.Stage as stage_row;
    ghost use Rattle.std.specs.Coded.{codes};

    ghost coded = { Prim.hlevel (codes, stage_row.the_row.coded) };

    ghost view = { λ c. record { setup = c.setup; number = c.number; stage = c.stage; outbox = c.outbox } };

    ghost invariant = { λ c. IsSound c.setup c.number c.stage };
}

impl HeldClient {
    /// The client of the match that bytes are, for the player of this number, or None where there is no such player. One that begins in
    /// the match is on at its first state, with nothing said; any other is off.
    pub fn new(
        alloc: Global,
        game: &[u8],
        number: u32,
        begins: bool,
    ) -> Result<Option<HeldClient>, Refused>
        ensures is { IfOk result (λ client. OfMatch game.now (λ setup. IsNew setup number begins client)) }
        ensures refused { IfErr result (IsNoMatch game.now) }
    {
        let setup = match_of(alloc, game)?;
        if number < 1 || u32::from(setup.players) < number {
            return Ok(None);
        }
        let stage = first_stage(alloc, &setup, begins)?;
        Ok(Some(HeldClient {
            alloc,
            setup,
            number: number as u8,
            stage,
            outbox: Outbox::new(alloc),
            kept: Contents::new(),
        }))
    }

    /// Wishes to join.
    pub fn join(&mut self) -> Result<Went, OutOfMemory>
        ensures { Joins self.old result self.new }
    {
        let came = join(&mut self.stage, &mut self.outbox);
        settle(&mut self.stage, &mut self.outbox, came)
    }

    /// Gives the command that bytes spell, a list in JSON of the kind and what follows it, as in a match file behind the player. It is of
    /// the turn behind those that the client is done with.
    pub fn order(&mut self, command: &[u8]) -> Result<Went, OutOfMemory>
        ensures { Orders command.now self.old result self.new }
    {
        let came = order(
            self.alloc,
            &self.setup,
            &mut self.stage,
            &mut self.outbox,
            command,
        );
        settle(&mut self.stage, &mut self.outbox, came)
    }

    /// Hears a frame of the server. Bytes that are none are refused, and nothing changes. A frame is read into memory only where what it
    /// carries may matter.
    pub fn hear(&mut self, frame: &[u8]) -> Result<Went, OutOfMemory>
        ensures { HearsFrame frame.now self.old result self.new }
    {
        let came = hear_frame(
            self.alloc,
            &self.setup,
            &mut self.stage,
            &mut self.outbox,
            frame,
        );
        settle(&mut self.stage, &mut self.outbox, came)
    }

    /// Is cut off: it is off, and nothing waits to be sent.
    pub fn cut(&mut self)
        ensures { IsCutOff self.old self.new }
    {
        self.stage = Stage::Off;
        self.outbox.clear();
    }

    /// Plays the turns that are released, at most so many, and answers how many these were. The systems are made once for all of them.
    pub fn play(&mut self, most: u32) -> Result<u32, OutOfMemory>
        ensures { Plays most self.old result self.new }
    {
        if most == 0 {
            return Ok(0);
        }
        let out = Playing::take_out(self.alloc, &self.setup, &mut self.stage, &mut self.outbox);
        let Some(mut playing) = out else {
            return Ok(0);
        };
        let turns = play_seat(self.alloc, &self.setup, &mut playing, most, &mut self.kept)?;
        playing.put_back(&mut self.stage, &mut self.outbox);
        Ok(turns)
    }

    /// The frames that wait to be sent, one behind another.
    pub fn said(&self) -> &[u8]
        ensures { result.now ≡ self.now.outbox }
    {
        self.outbox.bytes()
    }

    /// Takes the frames that wait to be sent.
    pub fn take(&mut self) -> Vec<u8>
        ensures bytes { result.items ≡ self.old.outbox }
        ensures empty { self.new.outbox ≡ [] }
        ensures stays { life self.new ≡ life self.old }
        ensures same { IsSame self.old self.new }
    {
        self.outbox.take()
    }

    /// The match.
    pub fn setup(&self) -> &Setup
        ensures { result.now ≡ self.now.setup }
    {
        &self.setup
    }

    /// The number of the player for whom it acts, from 1.
    pub fn number(&self) -> u8
        ensures { result ≡ self.now.number }
    {
        self.number
    }

    /// Whether it waits for a state.
    pub fn joining(&self) -> bool
        ensures { result ≡ is_joining (life self.now) }
    {
        matches!(self.stage, Stage::Joining)
    }

    /// The state of one that is on.
    pub fn state(&self) -> Option<&State>
        ensures { option_copied result ≡ state_of (life self.now) }
    {
        match &self.stage {
            Stage::Off => None,
            Stage::Joining => None,
            Stage::On { state, .. } => Some(state),
        }
    }

    /// Its turn.
    pub fn turn(&self) -> Option<u32>
        ensures { result ≡ turn_of (life self.now) }
    {
        match self.state() {
            Some(state) => Some(state.turn),
            None => None,
        }
    }

    /// The turn up to which it knows that turns are released.
    pub fn released(&self) -> Option<u32>
        ensures { result ≡ released_of (life self.now) }
    {
        match &self.stage {
            Stage::Off => None,
            Stage::Joining => None,
            Stage::On { seat, .. } => Some(seat.released),
        }
    }

    /// The turn up to which it is done with its commands.
    pub fn done(&self) -> Option<u32>
        ensures { result ≡ done_of (life self.now) }
    {
        match &self.stage {
            Stage::Off => None,
            Stage::Joining => None,
            Stage::On { seat, .. } => Some(seat.done),
        }
    }

    /// The digest and the turn of its state.
    pub fn stamp(&self) -> Option<Stamp>
        ensures { LooksAt (state_of (life self.now)) (IsStamp self.now.setup) result }
    {
        match &self.stage {
            Stage::Off => None,
            Stage::Joining => None,
            Stage::On { state, .. } => Some(Stamp::of(&self.setup, state)),
        }
    }

    /// The bytes of its state, and their digest.
    pub fn stored(&self) -> Result<Option<Stored>, OutOfMemory>
        ensures { LooksAtClient IsStored self.now result }
    {
        match &self.stage {
            Stage::Off => Ok(None),
            Stage::Joining => Ok(None),
            Stage::On { state, .. } => Ok(Some(Stored::of(self.alloc, &self.setup, state)?)),
        }
    }

    /// The entities of its state, in their order.
    pub fn entities(&self) -> Result<Option<Vec<Entity>>, OutOfMemory>
        ensures { LooksAtClient (λ setup state found. found.items ≡ map entity_of state.rows) self.now result }
    {
        match &self.stage {
            Stage::Off => Ok(None),
            Stage::Joining => Ok(None),
            Stage::On { state, .. } => Ok(Some(entities_of(self.alloc, state.rows.as_slice())?)),
        }
    }

    /// Its state as text: a line of its clock, and one of each row.
    pub fn show(&self) -> Result<Option<String>, OutOfMemory>
        ensures { LooksAtClient (λ setup state text. string_bytes text ≡ show_text setup state) self.now result }
    {
        match &self.stage {
            Stage::Off => Ok(None),
            Stage::Joining => Ok(None),
            Stage::On { state, .. } => Ok(Some(text_of(self.alloc, &self.setup, state)?)),
        }
    }
}
