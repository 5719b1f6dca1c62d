//! The turns that a client plays on a board, with what it says of each in its outbox.

ghost use Rattle.{sim_board.specs.Boards.{setup_in, state_in}, sim_client.specs.{Lives.{On, plays}, StageWords.{IsPlaying, player_at}}};
ghost use Rattle.sim_held.specs.Clients.{frames_of, goes_on, PlaysOnce, RanOn, runs};
ghost use Rattle.std.specs.Prelude.{All, IfOk, OnOk, ◌++◌, ◌≡◌};

use crate::playing::Playing;
use sim_base::{Global, OutOfMemory, Setup};
use sim_board::Board;
use sim_client::{Did, play};
use sim_orders::OrderTable;
use sim_system::System;

// Plays the next turn where it is released, puts what is said of it into the outbox, and answers whether there was one.
fn play_once(
    alloc: Global,
    setup: &Setup,
    orders: &OrderTable,
    board: &mut Board<'_>,
    playing: &mut Playing,
) -> Result<bool, OutOfMemory>
    requires { IsPlaying setup.now board.old playing.old.seat ⟦<dyn System as System>⟧ }
    ensures plays { let old = On (player_at (state_in board.old) playing.old.seat) in IfOk result (λ there. PlaysOnce (plays setup.now old) old
        playing.old.outbox there (On (player_at (state_in board.new) playing.new.seat)) playing.new.outbox) }
    ensures playing { OnOk result (IsPlaying setup.now board.new playing.new.seat ⟦<dyn System as System>⟧) }
{
    match play(alloc, setup, orders, board, &mut playing.seat)? {
        Did::Idle => Ok(false),
        Did::Done { up } => {
            playing.outbox.push_all(up.as_slice())?;
            Ok(true)
        }
    }
}

/// Plays the turns that are released, at most so many, and answers how many these were. The state is that of the board.
pub fn play_turns(
    alloc: Global,
    orders: &OrderTable,
    board: &mut Board<'_>,
    playing: &mut Playing,
    most: u32,
) -> Result<u32, OutOfMemory>
    requires { IsPlaying (setup_in board.old) board.old playing.old.seat ⟦<dyn System as System>⟧ }
    ensures ran { let run = runs (setup_in board.old) most (On (player_at (state_in board.old) playing.old.seat)) in IfOk result (λ turns. RanOn run
        playing.old.outbox turns (On (player_at (state_in board.new) playing.new.seat)) playing.new.outbox) }
    ensures playing { OnOk result (IsPlaying (setup_in board.old) board.new playing.new.seat ⟦<dyn System as System>⟧) }
{
    let setup = board.setup();
    for played in 0..most {
        let there = play_once(alloc, setup, orders, board, playing)?;
        if !there {
            return Ok(played);
        }
    }
    Ok(most)
}
