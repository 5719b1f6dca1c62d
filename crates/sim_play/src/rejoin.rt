//! A match that a second client joins late: the first plays all of it, and gives the bytes of its state at a turn; the second
//! loads them, and plays on with systems of its own.

ghost use Rattle.std.specs.Prelude.{IfOk, OnOk, string_bytes, suc, ◌++◌, ◌-◌, ◌≡◌};
ghost use Rattle.sim_play.specs.Common.{after, HaveKinds, IsSetup, IsValid, own_turns, setup_in, StandsFor, State as AnyState, state_in, systems, systems_of};
ghost use Rattle.sim_play.specs.Playing.{ComesTo, GoesOnTo, HasPlayed, MayReach, MayResume};
ghost use Rattle.{sim_play.specs.Lines.past_lines, sim_play.specs.Lines.rejoin_text as text_of_rejoin, sim_turn.specs.Turns.MayPlayUntil};

use crate::lines::push_line;
use sim_base::{Global, OutOfMemory, Setup, State};
use sim_board::Board;
use sim_codec::{StateFault, load, spell};
use sim_orders::OrderTable;
use sim_system::{Rig, System};
use sim_turn::play;

/// The lines of a whole match, and those of a second client that loads the bytes of the first one's state at a turn and plays
/// on. Both rigs come back; where there was memory, each stands for the last state.
pub fn rejoin_text(
    alloc: Global,
    setup: &Setup,
    turn: u32,
    first: Rig,
    second: Rig,
    orders: &OrderTable,
) -> (Result<String, OutOfMemory>, Rig, Rig)
    requires first { MayReach setup.now turn (systems_of first ⟦<dyn System as System>⟧) }
    requires second { HaveKinds (systems_of second ⟦<dyn System as System>⟧) }
    ensures text { IfOk result.0 (λ text. string_bytes text ≡ text_of_rejoin setup.now turn) }
    ensures played { HasPlayed ⟦<dyn System as System>⟧ setup.now (after setup.now (own_turns setup.now 0 setup.now.turns)) result.0 first result.1 }
    ensures joined { HasPlayed ⟦<dyn System as System>⟧ setup.now (after setup.now (own_turns setup.now 0 setup.now.turns)) result.0 second result.2 }
{
    let mut board = Board::new(alloc, setup, first);
    let mut text = String::new(alloc);
    let client = Client {
        alloc,
        orders,
        word: "first",
    };
    let stored = client.start_lines(&mut board, turn, &mut text);
    let (_, first) = board.finish();
    match stored {
        Ok(bytes) => match loaded(alloc, setup, &bytes) {
            Ok(state) => {
                let client = Client {
                    alloc,
                    orders,
                    word: "second",
                };
                let (text, second) = client.rest_text(setup, state, second, text);
                (text, first, second)
            }
            Err(error) => (Err(error), first, second),
        },
        Err(error) => (Err(error), first, second),
    }
}

// Loads a state from the bytes that were spelled of it.
fn loaded(alloc: Global, setup: &Setup, bytes: &[u8]) -> Result<State, OutOfMemory>
    requires limits { IsSetup setup.now }
    requires stored { (state : AnyState) × StandsFor setup.now bytes.now state }
    ensures state { (state : AnyState) → StandsFor setup.now bytes.now state → IfOk result (λ loaded. loaded ≡ state) }
    ensures valid { IfOk result (IsValid setup.now) }
{
    match load(alloc, setup, bytes) {
        Ok(state) => Ok(state),
        Err(StateFault::OutOfMemory) => Err(OutOfMemory),
        Err(_) => unreachable!(),
    }
}

// With what a client plays, and the word with which each of its lines begins.
#[derive(Drop)]
struct Client<'a> {
    alloc: Global,
    orders: &'a OrderTable,
    word: &'a str,
}

impl Client<'_> {
    // Plays a board whose past is the match's own to a turn, and appends a line for each turn behind that of its state.
    fn push_past(
        &self,
        board: &mut Board<'_>,
        until: u32,
        out: &mut String,
    ) -> Result<(), OutOfMemory>
        requires may { MayPlayUntil board.old until ⟦<dyn System as System>⟧ }
        requires own { state_in board.old ≡ after (setup_in board.old) (own_turns (setup_in board.old) 0 (state_in board.old).turn) }
        ensures text { OnOk result (string_bytes out.new ≡ string_bytes out.old
            ++ past_lines self.now.word.now (setup_in board.old) (suc (state_in board.old).turn) (until - (state_in board.old).turn)) }
        ensures valid { OnOk result (IsValid (setup_in board.old) (state_in board.new)) }
        ensures ends { GoesOnTo ⟦<dyn System as System>⟧ (after (setup_in board.old) (own_turns (setup_in board.old) 0 until)) result board.old board.new }
    {
        let setup = board.setup();
        let begun = board.scene().state.turn;
        for number in begun..until {
            play(self.alloc, board, self.orders, number + 1)?;
            push_line(self.word, setup, board.scene().state, out)?;
        }
        Ok(())
    }

    // Plays a board from its first state to the end with a line for each turn, and gives the bytes of the state at a turn.
    fn start_lines(
        &self,
        board: &mut Board<'_>,
        turn: u32,
        out: &mut String,
    ) -> Result<Vec<u8>, OutOfMemory>
        requires { MayReach (setup_in board.old) turn (systems board.old ⟦<dyn System as System>⟧) }
        ensures bytes { IfOk result (λ bytes. StandsFor (setup_in board.old) bytes.items (after (setup_in board.old) (own_turns (setup_in board.old) 0 turn))) }
        ensures text { OnOk result (string_bytes out.new ≡ string_bytes out.old
            ++ past_lines self.now.word.now (setup_in board.old) 0 (suc (setup_in board.old).turns)) }
        ensures ends { ComesTo ⟦<dyn System as System>⟧ (after (setup_in board.old) (own_turns (setup_in board.old) 0 (setup_in board.old).turns)) result
            board.old board.new }
    {
        board.start()?;
        let setup = board.setup();
        push_line(self.word, setup, board.scene().state, out)?;
        self.push_past(board, turn, out)?;
        let bytes = spell(self.alloc, setup, board.scene().state)?;
        self.push_past(board, setup.turns, out)?;
        Ok(bytes)
    }

    // Has a board take a state of the match, and plays it to the end with a line for each turn.
    fn adopt_lines(
        &self,
        board: &mut Board<'_>,
        state: State,
        out: &mut String,
    ) -> Result<(), OutOfMemory>
        requires resumes { MayResume (setup_in board.old) state (systems board.old ⟦<dyn System as System>⟧) }
        requires own { state ≡ after (setup_in board.old) (own_turns (setup_in board.old) 0 state.turn) }
        ensures text { OnOk result (string_bytes out.new ≡ string_bytes out.old
            ++ past_lines self.now.word.now (setup_in board.old) state.turn (suc ((setup_in board.old).turns - state.turn))) }
        ensures ends { ComesTo ⟦<dyn System as System>⟧ (after (setup_in board.old) (own_turns (setup_in board.old) 0 (setup_in board.old).turns)) result
            board.old board.new }
    {
        board.adopt(state)?;
        let setup = board.setup();
        push_line(self.word, setup, board.scene().state, out)?;
        self.push_past(board, setup.turns, out)
    }

    // Plays on from a state of the match with the systems of a rig. The lines stand behind a text.
    fn rest_text(
        &self,
        setup: &Setup,
        state: State,
        rig: Rig,
        text: String,
    ) -> (Result<String, OutOfMemory>, Rig)
        requires resumes { MayResume setup.now state (systems_of rig ⟦<dyn System as System>⟧) }
        requires own { state ≡ after setup.now (own_turns setup.now 0 state.turn) }
        ensures text { IfOk result.0 (λ made. string_bytes made ≡ string_bytes text
            ++ past_lines self.now.word.now setup.now state.turn (suc (setup.now.turns - state.turn))) }
        ensures played { HasPlayed ⟦<dyn System as System>⟧ setup.now (after setup.now (own_turns setup.now 0 setup.now.turns)) result.0 rig result.1 }
    {
        let mut board = Board::new(self.alloc, setup, rig);
        let mut lines = text;
        let played = self.adopt_lines(&mut board, state, &mut lines);
        let (_, rig) = board.finish();
        match played {
            Ok(()) => (Ok(lines), rig),
            Err(error) => (Err(error), rig),
        }
    }
}
