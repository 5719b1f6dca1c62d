//! The calls of a board.

ghost use Rattle.std.specs.Prelude.{[], false, ◌≡◌};
ghost use Rattle.sim_base.specs.{Limits.IsSetup, Limits.IsValid, Turn.first_state as first_state_of};
ghost use Rattle.sim_board.specs.Boards.{Begins, IsWhole, Makes, is_whole, rig_in, setup_in, state_in, systems};
ghost use Rattle.{sim_plans.specs.RowChanges.Fits, sim_plans.specs.SceneWords.Stands, sim_system.specs.Meanings.HaveKinds};

use crate::build::build;
use crate::first::first_state;
use sim_base::{Change, Global, Items, OutOfMemory, Setup, State};
use sim_plans::Scene;
use sim_system::{Rig, System};

/// A match in progress: its state, and the systems that are told of each change. It is whole while they stand for the
/// state. Where the row of the last change stood is a hint for the next.
#[derive(Drop)]
pub struct Board<'a> {
    pub(crate) alloc: Global,
    pub(crate) setup: &'a Setup,
    pub(crate) state: State,
    pub(crate) rig: Rig,
    pub(crate) near: usize,
    pub(crate) whole: bool,
}

impl<'a> Board<'a> {
    /// A board that is not whole, with no row, at turn 0.
    pub fn new(alloc: Global, setup: &'a Setup, rig: Rig) -> Board<'a>
        ensures whole { is_whole result ≡ false }
        ensures state { state_in result ≡ record { turn = 0; next = 2; word = 0; rows = [] } }
        ensures rig { rig_in result ≡ rig }
        ensures setup { setup_in result ≡ setup.now }
    {
        let state = State {
            turn: 0,
            next: 2,
            word: 0,
            rows: Items::new(alloc),
        };
        Board {
            alloc,
            setup,
            state,
            rig,
            near: 0,
            whole: false,
        }
    }

    /// The match that it is about.
    pub fn setup(&self) -> &'a Setup
        ensures { result.now ≡ setup_in self.now }
    {
        self.setup
    }

    /// Whether its last start, adoption or change came to its end. Right after one of these calls, true tells that `whole` of its
    /// clause holds, since `err` has it false where memory was wanting. A turn is many changes and more, and where it found no
    /// memory this tells nothing of it.
    pub fn whole(&self) -> bool
        ensures { result ≡ is_whole self.now }
    {
        self.whole
    }

    /// Takes the state in which the match begins, and has each system built once.
    pub fn start(&mut self) -> Result<(), OutOfMemory>
        requires limits { IsSetup (setup_in self.old) }
        requires kinds { HaveKinds (systems self.old ⟦<dyn System as System>⟧) }
        ensures { Begins result (first_state_of (setup_in self.old)) self.old self.new ⟦<dyn System as System>⟧ }
    {
        self.whole = false;
        let state = first_state(self.alloc, self.setup)?;
        self.adopt(state)
    }

    /// Takes this state, and has each system built once.
    pub fn adopt(&mut self, state: State) -> Result<(), OutOfMemory>
        requires limits { IsSetup (setup_in self.old) }
        requires valid { IsValid (setup_in self.old) state }
        requires kinds { HaveKinds (systems self.old ⟦<dyn System as System>⟧) }
        ensures { Begins result state self.old self.new ⟦<dyn System as System>⟧ }
    {
        self.whole = false;
        self.state = state;
        build(self.alloc, self.setup, &self.state, &mut self.rig)?;
        self.whole = true;
        Ok(())
    }

    /// Makes a change that fits, and tells the systems of it.
    pub fn apply(&mut self, change: Change) -> Result<(), OutOfMemory>
        requires whole { IsWhole self.old ⟦<dyn System as System>⟧ }
        requires fits { Fits (setup_in self.old) (state_in self.old) change }
        ensures { Makes result change self.old self.new ⟦<dyn System as System>⟧ }
    {
        let mut change = change;
        self.make(&mut change)
    }

    /// Makes a change that fits where it stands, as in a list, and tells the systems of it. What the state keeps of the
    /// change is taken out of it.
    pub fn make(&mut self, change: &mut Change) -> Result<(), OutOfMemory>
        requires whole { IsWhole self.old ⟦<dyn System as System>⟧ }
        requires fits { Fits (setup_in self.old) (state_in self.old) change.old }
        ensures { Makes result change.old self.old self.new ⟦<dyn System as System>⟧ }
    {
        self.whole = false;
        self.step(change)?;
        self.whole = true;
        Ok(())
    }

    /// The moment, which can be asked.
    pub fn scene(&self) -> Scene<'_>
        requires { IsWhole self.now ⟦<dyn System as System>⟧ }
        ensures stands { Stands result ⟦<dyn System as System>⟧ }
        ensures setup { result.setup.now ≡ setup_in self.now }
        ensures state { result.state.now ≡ state_in self.now }
    {
        Scene {
            setup: self.setup,
            state: &self.state,
            rig: &self.rig,
        }
    }

    /// Gives back the state and the rig.
    pub fn finish(self) -> (State, Rig)
        ensures state { result.0 ≡ state_in self.entry }
        ensures rig { result.1 ≡ rig_in self.entry }
    {
        let Board {
            alloc: _,
            setup: _,
            state,
            rig,
            near: _,
            whole: _,
        } = self;
        (state, rig)
    }
}
