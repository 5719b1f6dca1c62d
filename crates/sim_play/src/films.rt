//! A film of a match: its states, so many turns apart, each with the digest, the rows and their ways. The match is played once.

ghost use Rattle.std.specs.Prelude.{IfOk, OnOk, string_bytes, ◌++◌, ◌≡◌, ◌≤◌};
ghost use Rattle.sim_play.specs.{Common.IsValid, Common.setup_in, Common.systems, Common.systems_of, Films.film_text as text_of_film};
ghost use Rattle.sim_play.specs.{Films.is_told as is_turn_told, Films.last_state, Films.told_frame, Playing.ComesTo, Playing.HasPlayed, Playing.MayBegin};

use crate::lines::push_line;
use sim_base::{Global, OutOfMemory, Setup, State};
use sim_board::Board;
use sim_orders::OrderTable;
use sim_report::{push_show, push_ways};
use sim_system::{Rig, System};
use sim_turn::play;

/// The states of a match at turns so many apart, from turn 0 on, and always that of the last one. The rig comes back; where
/// there was memory, it stands for the last state.
pub fn film_text(
    alloc: Global,
    setup: &Setup,
    every: u32,
    rig: Rig,
    orders: &OrderTable,
) -> (Result<String, OutOfMemory>, Rig)
    requires begins { MayBegin setup.now (systems_of rig ⟦<dyn System as System>⟧) }
    requires every { 1 ≤ every }
    ensures text { IfOk result.0 (λ text. string_bytes text ≡ text_of_film setup.now every) }
    ensures played { HasPlayed ⟦<dyn System as System>⟧ setup.now (last_state setup.now) result.0 rig result.1 }
{
    let mut board = Board::new(alloc, setup, rig);
    let mut text = String::new(alloc);
    let played = start_frames(alloc, &mut board, every, orders, &mut text);
    let (_, rig) = board.finish();
    match played {
        Ok(()) => (Ok(text), rig),
        Err(error) => (Err(error), rig),
    }
}

// Starts a board, and plays it to the end with a frame of each turn that is told.
fn start_frames(
    alloc: Global,
    board: &mut Board<'_>,
    every: u32,
    orders: &OrderTable,
    out: &mut String,
) -> Result<(), OutOfMemory>
    requires begins { MayBegin (setup_in board.old) (systems board.old ⟦<dyn System as System>⟧) }
    requires every { 1 ≤ every }
    ensures text { OnOk result (string_bytes out.new ≡ string_bytes out.old ++ text_of_film (setup_in board.old) every) }
    ensures ends { ComesTo ⟦<dyn System as System>⟧ (last_state (setup_in board.old)) result board.old board.new }
{
    board.start()?;
    let setup = board.setup();
    push_told(every, setup, board.scene().state, out)?;
    for turn in 0..setup.turns {
        play(alloc, board, orders, turn + 1)?;
        push_told(every, setup, board.scene().state, out)?;
    }
    Ok(())
}

// Appends the frame of a state, if its turn is told.
fn push_told(every: u32, setup: &Setup, state: &State, out: &mut String) -> Result<(), OutOfMemory>
    requires valid { IsValid setup.now state.now }
    requires every { 1 ≤ every }
    ensures { OnOk result (string_bytes out.new ≡ string_bytes out.old ++ told_frame every setup.now state.now) }
{
    if !is_told(every, setup.turns, state.turn) {
        return Ok(());
    }
    push_line("turn", setup, state, out)?;
    push_show(setup, state, out)?;
    push_ways(state, out)
}

// Whether a turn is told: each that `every` divides, and the last one.
fn is_told(every: u32, last: u32, turn: u32) -> bool
    requires { 1 ≤ every }
    ensures { result ≡ is_turn_told every last turn }
{
    turn % every == 0 || turn == last
}
