//! A match that is played with the systems of a rig, which is handed back.

ghost use Rattle.sim_play.specs.{Common.{after, first_state, IsValid, own_turns, setup_in, state_in, systems, systems_of}, Lines.end_from};
ghost use Rattle.sim_play.specs.{Lines.{play_text as text_of_play, resume_text as text_of_resume}, Playing.{ComesTo, HasPlayed, MayBegin, MayReach, MayResume}};
ghost use Rattle.std.specs.Prelude.{IfOk, OnOk, string_bytes, ◌++◌, ◌≡◌};

use crate::lines::push_turns;
use sim_base::{Global, OutOfMemory, Setup, State};
use sim_board::Board;
use sim_orders::OrderTable;
use sim_system::{Rig, System};
use sim_turn::play;

// Starts a board, and plays it to the end with a line for each turn.
fn start_lines(
    alloc: Global,
    board: &mut Board<'_>,
    orders: &OrderTable,
    out: &mut String,
) -> Result<(), OutOfMemory>
    requires { MayBegin (setup_in board.old) (systems board.old ⟦<dyn System as System>⟧) }
    ensures text { OnOk result (string_bytes out.new ≡ string_bytes out.old ++ text_of_play (setup_in board.old)) }
    ensures ends { ComesTo ⟦<dyn System as System>⟧ (end_from (setup_in board.old) (first_state (setup_in board.old))) result board.old board.new }
{
    board.start()?;
    push_turns(alloc, board, orders, out)
}

/// The lines of a whole match. The rig comes back; where there was memory, it stands for the last state.
pub fn play_text(
    alloc: Global,
    setup: &Setup,
    rig: Rig,
    orders: &OrderTable,
) -> (Result<String, OutOfMemory>, Rig)
    requires { MayBegin setup.now (systems_of rig ⟦<dyn System as System>⟧) }
    ensures text { IfOk result.0 (λ text. string_bytes text ≡ text_of_play setup.now) }
    ensures played { HasPlayed ⟦<dyn System as System>⟧ setup.now (end_from setup.now (first_state setup.now)) result.0 rig result.1 }
{
    let mut board = Board::new(alloc, setup, rig);
    let mut text = String::new(alloc);
    let played = start_lines(alloc, &mut board, orders, &mut text);
    let (_, rig) = board.finish();
    match played {
        Ok(()) => (Ok(text), rig),
        Err(error) => (Err(error), rig),
    }
}

// Has a board take a state, and plays it to the end with a line for each turn.
fn adopt_lines(
    alloc: Global,
    board: &mut Board<'_>,
    state: State,
    orders: &OrderTable,
    out: &mut String,
) -> Result<(), OutOfMemory>
    requires { MayResume (setup_in board.old) state (systems board.old ⟦<dyn System as System>⟧) }
    ensures text { OnOk result (string_bytes out.new ≡ string_bytes out.old ++ text_of_resume (setup_in board.old) state) }
    ensures ends { ComesTo ⟦<dyn System as System>⟧ (end_from (setup_in board.old) state) result board.old board.new }
{
    board.adopt(state)?;
    push_turns(alloc, board, orders, out)
}

/// The lines of a match from a stored state on. The rig comes back; where there was memory, it stands for the last state.
pub fn resume_text(
    alloc: Global,
    setup: &Setup,
    state: State,
    rig: Rig,
    orders: &OrderTable,
) -> (Result<String, OutOfMemory>, Rig)
    requires { MayResume setup.now state (systems_of rig ⟦<dyn System as System>⟧) }
    ensures text { IfOk result.0 (λ text. string_bytes text ≡ text_of_resume setup.now state) }
    ensures played { HasPlayed ⟦<dyn System as System>⟧ setup.now (end_from setup.now state) result.0 rig result.1 }
{
    let mut board = Board::new(alloc, setup, rig);
    let mut text = String::new(alloc);
    let played = adopt_lines(alloc, &mut board, state, orders, &mut text);
    let (_, rig) = board.finish();
    match played {
        Ok(()) => (Ok(text), rig),
        Err(error) => (Err(error), rig),
    }
}

// Starts a board, and plays it to a turn.
fn start_until(
    alloc: Global,
    board: &mut Board<'_>,
    orders: &OrderTable,
    turn: u32,
) -> Result<(), OutOfMemory>
    requires { MayReach (setup_in board.old) turn (systems board.old ⟦<dyn System as System>⟧) }
    ensures valid { OnOk result (IsValid (setup_in board.old) (state_in board.new)) }
    ensures ends { ComesTo ⟦<dyn System as System>⟧ (after (setup_in board.old) (own_turns (setup_in board.old) 0 turn)) result board.old board.new }
{
    board.start()?;
    play(alloc, board, orders, turn)
}

/// The state of a turn of a match. The rig comes back; where there was memory, it stands for that state.
pub fn state_at(
    alloc: Global,
    setup: &Setup,
    turn: u32,
    rig: Rig,
    orders: &OrderTable,
) -> (Result<State, OutOfMemory>, Rig)
    requires { MayReach setup.now turn (systems_of rig ⟦<dyn System as System>⟧) }
    ensures state { IfOk result.0 (λ state. state ≡ after setup.now (own_turns setup.now 0 turn)) }
    ensures valid { IfOk result.0 (IsValid setup.now) }
    ensures played { HasPlayed ⟦<dyn System as System>⟧ setup.now (after setup.now (own_turns setup.now 0 turn)) result.0 rig result.1 }
{
    let mut board = Board::new(alloc, setup, rig);
    let played = start_until(alloc, &mut board, orders, turn);
    let (state, rig) = board.finish();
    match played {
        Ok(()) => (Ok(state), rig),
        Err(error) => (Err(error), rig),
    }
}
