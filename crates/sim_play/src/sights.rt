//! What the players of a match see, and have explored, at a turn of it. The systems of a rig play it, which is handed back.

ghost use Rattle.std.specs.Prelude.{IfOk, length, List, OnOk, string_bytes, ℕ, ◌*◌, ◌-◌, ◌≡◌};
ghost use Rattle.sim_play.specs.Common.{after, cells_in, joined_at, own_turns, setup_in, sight_text as text_of_vision, systems, systems_of, vision_after};
ghost use Rattle.sim_play.specs.Lines.{end_from, later_of, resight_text as text_of_resight, sight_file, sight_text as text_of_sight};
ghost use Rattle.sim_play.specs.Playing.{ComesTo, HasPlayed, MayReach, MayResume};

use crate::following::follow_until;
use sim_base::{Global, OutOfMemory, Setup, State};
use sim_board::Board;
use sim_orders::OrderTable;
use sim_system::{Rig, System};
use sim_vision::{Sight, push_sight};

// Starts a board, and tells what is seen and explored of its states up to a turn.
fn tell_from_the_start(
    alloc: Global,
    board: &mut Board<'_>,
    orders: &OrderTable,
    turn: u32,
) -> Result<(String, Vec<u8>), OutOfMemory>
    requires { MayReach (setup_in board.old) turn (systems board.old ⟦<dyn System as System>⟧) }
    ensures text { IfOk result (λ told. string_bytes told.0 ≡ text_of_sight (setup_in board.old) turn) }
    ensures file { IfOk result (λ told. told.1.items ≡ sight_file (setup_in board.old) turn) }
    ensures ends { ComesTo ⟦<dyn System as System>⟧ (after (setup_in board.old) (own_turns (setup_in board.old) 0 turn)) result board.old board.new }
{
    let mut sight = Sight::new(alloc, board.setup())?;
    board.start()?;
    sight.follow(board.scene().state)?;
    follow_until(alloc, board, orders, &mut sight, turn)?;
    let mut text = String::new(alloc);
    push_sight(&sight, &mut text)?;
    Ok((text, sight.explored_bytes(alloc)?))
}

/// What the players of a match see at a turn and have explored up to it: a line for each, and the file of explored cells. The
/// rig comes back; where there was memory, it stands for the state of that turn.
pub fn sight_at(
    alloc: Global,
    setup: &Setup,
    turn: u32,
    rig: Rig,
    orders: &OrderTable,
) -> (Result<(String, Vec<u8>), OutOfMemory>, Rig)
    requires { MayReach setup.now turn (systems_of rig ⟦<dyn System as System>⟧) }
    ensures text { IfOk result.0 (λ told. string_bytes told.0 ≡ text_of_sight setup.now turn) }
    ensures file { IfOk result.0 (λ told. told.1.items ≡ sight_file setup.now turn) }
    ensures played { HasPlayed ⟦<dyn System as System>⟧ setup.now (after setup.now (own_turns setup.now 0 turn)) result.0 rig result.1 }
{
    let mut board = Board::new(alloc, setup, rig);
    let told = tell_from_the_start(alloc, &mut board, orders, turn);
    let (_, rig) = board.finish();
    (told, rig)
}

// Has a board take a state, and tells what is seen and explored at the end of its match.
fn tell_from_a_state(
    alloc: Global,
    board: &mut Board<'_>,
    state: State,
    orders: &OrderTable,
    sight: Sight<'_>,
) -> Result<String, OutOfMemory>
    requires resumes { MayResume (setup_in board.old) state (systems board.old ⟦<dyn System as System>⟧) }
    requires same { sight.setup ≡ setup_in board.old }
    ensures text { IfOk result (λ text. string_bytes text
        ≡ text_of_vision (vision_after sight.entry (later_of (setup_in board.old) state ((setup_in board.old).turns - state.turn)))) }
    ensures ends { ComesTo ⟦<dyn System as System>⟧ (end_from (setup_in board.old) state) result board.old board.new }
{
    let mut sight = sight;
    board.adopt(state)?;
    let last = board.setup().turns;
    follow_until(alloc, board, orders, &mut sight, last)?;
    let mut text = String::new(alloc);
    push_sight(&sight, &mut text)?;
    Ok(text)
}

/// What the players of a match see in its last state, and have explored then, from a stored state on at which a sight was
/// joined. The rig comes back; where there was memory, it stands for the last state.
pub fn resight_text(
    alloc: Global,
    setup: &Setup,
    state: State,
    sight: Sight<'_>,
    rig: Rig,
    orders: &OrderTable,
) -> (Result<String, OutOfMemory>, Rig)
    requires resumes { MayResume setup.now state (systems_of rig ⟦<dyn System as System>⟧) }
    requires same { sight.setup ≡ setup.now }
    ensures text { IfOk result.0 (λ text. (bytes : List ℕ) → sight.entry ≡ joined_at setup.now state bytes → length bytes ≡ setup.now.players *
        cells_in setup.now →
        string_bytes text ≡ text_of_resight setup.now state bytes) }
    ensures played { HasPlayed ⟦<dyn System as System>⟧ setup.now (end_from setup.now state) result.0 rig result.1 }
{
    let mut board = Board::new(alloc, setup, rig);
    let told = tell_from_a_state(alloc, &mut board, state, orders, sight);
    let (_, rig) = board.finish();
    (told, rig)
}
