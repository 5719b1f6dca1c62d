//! A client of a session: its steps, and what is seen of it.
//!
//! Its systems are always on a board. A client that is not on has one that is not whole, and its systems are cleared. The
//! board is taken out only to be made anew, as the client is cut off.

ghost use Rattle.{sim_base.specs.Limits.{HasFewIds, IsFrom, IsSetup}, sim_client.specs.ClientWords.{Begins, did_in, digest_of, HasDigest, is_joining, IsSound}};
ghost use Rattle.sim_client.specs.ClientWords.{Keeps, life, mark_of, number_in, setup_in, state_of, Steps, systems, Tells, turn_of};
ghost use Rattle.sim_client.specs.{Lives.{bends, joins, Off, orders as orders_by, plays, starts}, StageWords.{AreCleared, AreOf}};
ghost use Rattle.sim_system.specs.{Meanings.{all_cleared, HaveKinds}, RigWords.systems_of};
ghost use Rattle.std.specs.Prelude.{IfOk, min, option_copied, ◌≡◌};

mod hearing;

use crate::bending::bend;
use crate::did::{Did, Played, one};
use crate::digests::Digests;
use crate::playing::{begin, order, play, play_beside};
use crate::stage::Stage;
use sim_base::{Command, Fixed, Global, OutOfMemory, Setup, State};
use sim_board::Board;
use sim_codec::{digest, mark};
use sim_orders::OrderTable;
use sim_system::{Rig, System};
use sim_wire::Up;

/// A client. After want of memory it may only be finished.
#[derive(Drop)]
pub struct Client<'a> {
    alloc: Global,
    setup: &'a Setup,
    orders: &'a OrderTable,
    number: u8,
    stage: Stage,
    board: Option<Board<'a>>,
}

impl<'a> Client<'a> {
    /// A client for the player of this number, which is off. Its systems have to be cleared.
    pub fn new(
        alloc: Global,
        setup: &'a Setup,
        orders: &'a OrderTable,
        number: u8,
        rig: Rig,
    ) -> Client<'a>
        requires limits { IsSetup setup.now }
        requires number { IsFrom 1 setup.now.players number }
        requires kinds { HaveKinds (systems_of rig ⟦<dyn System as System>⟧) }
        requires cleared { AreCleared (systems_of rig ⟦<dyn System as System>⟧) }
        ensures setup { setup_in result ≡ setup.now }
        ensures number { number_in result ≡ number }
        ensures off { life result ≡ Off }
        ensures systems { systems result ⟦<dyn System as System>⟧ ≡ systems_of rig ⟦<dyn System as System>⟧ }
        ensures sound { IsSound result ⟦<dyn System as System>⟧ }
    {
        Client {
            alloc,
            setup,
            orders,
            number,
            stage: Stage::Off,
            board: Some(Board::new(alloc, setup, rig)),
        }
    }

    /// Begins in the match at its first state.
    pub fn start(&mut self) -> Result<(), OutOfMemory>
        requires sound { IsSound self.old ⟦<dyn System as System>⟧ }
        requires off { life self.old ≡ Off }
        ensures { Begins ⟦<dyn System as System>⟧ (starts (setup_in self.old)) result self.old self.new }
    {
        let Some(board) = &mut self.board else {
            return Ok(());
        };
        board.start()?;
        let ahead = first_done(self.setup);
        self.stage = Stage::On {
            seat: begin(self.alloc, ahead, ahead),
        };
        Ok(())
    }

    /// Wishes to join.
    pub fn join(&mut self) -> Result<Did, OutOfMemory>
        requires sound { IsSound self.old ⟦<dyn System as System>⟧ }
        ensures { Steps ⟦<dyn System as System>⟧ (joins (life self.old)) result self.old self.new }
    {
        let Stage::Off = self.stage else {
            return Ok(Did::Idle);
        };
        let up = one(self.alloc, Up::Join)?;
        self.stage = Stage::Joining;
        Ok(Did::Done { up })
    }

    /// Gives a command, for the turn behind those that it is done with. It is copied only where it may be given.
    pub fn order(&mut self, command: &Command) -> Result<Did, OutOfMemory>
        requires sound { IsSound self.old ⟦<dyn System as System>⟧ }
        requires few { HasFewIds command.now }
        ensures { Steps ⟦<dyn System as System>⟧ (orders_by (setup_in self.old) command.now (life self.old)) result self.old self.new }
    {
        let Stage::On { seat } = &mut self.stage else {
            return Ok(Did::Idle);
        };
        order(self.alloc, self.setup, seat, command)
    }

    /// Plays the next turn.
    pub fn play(&mut self) -> Result<Did, OutOfMemory>
        requires sound { IsSound self.old ⟦<dyn System as System>⟧ }
        ensures { Steps ⟦<dyn System as System>⟧ (plays (setup_in self.old) (life self.old)) result self.old self.new }
    {
        let Stage::On { seat } = &mut self.stage else {
            return Ok(Did::Idle);
        };
        let Some(board) = &mut self.board else {
            return Ok(Did::Idle);
        };
        play(self.alloc, self.setup, self.orders, board, seat)
    }

    /// The same, with the digest of the state that it comes to. Both digests are taken from those that are kept, where the state is
    /// one of theirs.
    pub fn play_beside(&mut self, digests: &mut Digests) -> Result<Played, OutOfMemory>
        requires sound { IsSound self.old ⟦<dyn System as System>⟧ }
        ensures steps { Steps ⟦<dyn System as System>⟧ (plays (setup_in self.old) (life self.old)) (did_in result) self.old self.new }
        ensures digest { IfOk result (λ played. HasDigest (setup_in self.old) (life self.new) played.did played.digest) }
    {
        let Stage::On { seat } = &mut self.stage else {
            return Ok(Played {
                did: Did::Idle,
                digest: None,
            });
        };
        let Some(board) = &mut self.board else {
            return Ok(Played {
                did: Did::Idle,
                digest: None,
            });
        };
        play_beside(self.alloc, self.setup, self.orders, board, seat, digests)
    }

    /// Sets the health of an entity in this client alone, and answers whether it did. Health is in units of 1/65536.
    pub fn bend(&mut self, entity: u32, health: Fixed) -> bool
        requires sound { IsSound self.old ⟦<dyn System as System>⟧ }
        ensures tells { Tells (bends (setup_in self.old) entity health (life self.old)) (life self.old) result (life self.new) }
        ensures sound { IsSound self.new ⟦<dyn System as System>⟧ }
        ensures keeps { Keeps ⟦<dyn System as System>⟧ self.old self.new }
    {
        let Stage::On { .. } = self.stage else {
            return false;
        };
        let Some(board) = &mut self.board else {
            return false;
        };
        bend(board, entity, health)
    }

    /// Is cut off: its systems are cleared.
    pub fn cut(&mut self)
        requires kinds { HaveKinds (systems self.old ⟦<dyn System as System>⟧) }
        ensures off { life self.new ≡ Off }
        ensures cleared { systems self.new ⟦<dyn System as System>⟧ ≡ all_cleared (systems self.old ⟦<dyn System as System>⟧) }
        ensures sound { IsSound self.old ⟦<dyn System as System>⟧ → IsSound self.new ⟦<dyn System as System>⟧ }
        ensures setup { setup_in self.new ≡ setup_in self.old }
        ensures number { number_in self.new ≡ number_in self.old }
    {
        self.stage = Stage::Off;
        if let Some(board) = self.board.take() {
            let (_, mut rig) = board.finish();
            rig.clear();
            self.board = Some(Board::new(self.alloc, self.setup, rig));
        }
    }

    /// Whether it waits for a state.
    pub fn joining(&self) -> bool
        ensures { result ≡ is_joining (life self.now) }
    {
        matches!(self.stage, Stage::Joining)
    }

    /// The state of a client that is on.
    pub fn state(&self) -> Option<&State>
        requires { IsSound self.now ⟦<dyn System as System>⟧ }
        ensures { option_copied result ≡ state_of (life self.now) }
    {
        let Stage::On { .. } = self.stage else {
            return None;
        };
        match &self.board {
            Some(board) => Some(board.scene().state),
            None => None,
        }
    }

    /// Its turn.
    pub fn turn(&self) -> Option<u32>
        requires { IsSound self.now ⟦<dyn System as System>⟧ }
        ensures { result ≡ turn_of (life self.now) }
    {
        match self.state() {
            Some(state) => Some(state.turn),
            None => None,
        }
    }

    /// MD5 of all bytes of its state, at every turn.
    pub fn digest(&self) -> Option<[u8; 16]>
        requires { IsSound self.now ⟦<dyn System as System>⟧ }
        ensures { result ≡ digest_of (setup_in self.now) (life self.now) }
    {
        match self.state() {
            Some(state) => Some(digest(self.setup, state)),
            None => None,
        }
    }

    /// What it reports of its state: the digest where its turn is a multiple of 20, and elsewhere the shorter one, MD5 of the
    /// clock and of where each entity stands.
    pub fn mark(&self) -> Option<[u8; 16]>
        requires { IsSound self.now ⟦<dyn System as System>⟧ }
        ensures { result ≡ mark_of (setup_in self.now) (life self.now) }
    {
        match self.state() {
            Some(state) => Some(mark(self.setup, state)),
            None => None,
        }
    }

    /// Hands the rig back as it stands.
    pub fn finish(self) -> Rig
        requires { HaveKinds (systems self ⟦<dyn System as System>⟧) }
        ensures systems { systems_of result ⟦<dyn System as System>⟧ ≡ systems self.entry ⟦<dyn System as System>⟧ }
        ensures stands { IsSound self.entry ⟦<dyn System as System>⟧ → AreOf (setup_in self.entry) (life self.entry)
            (systems_of result ⟦<dyn System as System>⟧) }
    {
        let Client { board, .. } = self;
        match board {
            Some(board) => board.finish().1,
            None => unreachable!(),
        }
    }
}

// How many turns are released at the start.
fn first_done(setup: &Setup) -> u32
    ensures { result ≡ min setup.now.turns setup.now.delay }
{
    let delay = u32::from(setup.delay);
    if delay < setup.turns {
        delay
    } else {
        setup.turns
    }
}
