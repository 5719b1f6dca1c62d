//! A match that is played by the commands of a log, with the digest of the state after each turn.

ghost use Rattle.std.specs.Prelude.{All, IfOk, length, OnOk, ◌≡◌, ◌≤◌};
ghost use Rattle.sim_play.specs.Films.{digests_after as digests_of_turns, last_state, log_after as log_of_turns, match_turns as turns_of_match, state_after};
ghost use Rattle.sim_play.specs.{Common.IsOrderOf, Common.setup_in, Common.systems, Common.systems_of, Playing.ComesTo, Playing.HasPlayed, Playing.MayBegin};

use crate::own::match_turns;
use sim_base::{Global, OutOfMemory, Setup};
use sim_board::Board;
use sim_codec::digest;
use sim_orders::OrderTable;
use sim_replay::{Digests, Log, Orders, Turns};
use sim_system::{Rig, System};
use sim_turn::turn;

// Starts a board, plays it by these commands, and gives the digest of each state.
fn start_turns(
    alloc: Global,
    board: &mut Board<'_>,
    orders: &OrderTable,
    turns: &[Orders],
) -> Result<Digests, OutOfMemory>
    requires begins { MayBegin (setup_in board.old) (systems board.old ⟦<dyn System as System>⟧) }
    requires few { length turns.now ≤ (setup_in board.old).turns }
    requires players { All (All (IsOrderOf (setup_in board.old))) turns.now }
    ensures digests { IfOk result (λ digests. digests ≡ digests_of_turns (setup_in board.old) turns.now) }
    ensures ends { ComesTo ⟦<dyn System as System>⟧ (state_after (setup_in board.old) turns.now) result board.old board.new }
{
    board.start()?;
    let setup = board.setup();
    let mut digests = Digests::new(alloc);
    digests.push(digest(setup, board.scene().state))?;
    for commands in turns {
        turn(alloc, board, orders, commands.as_slice())?;
        digests.push(digest(setup, board.scene().state))?;
    }
    Ok(digests)
}

/// The digests of the states of a match after the first 0, 1, 2 .. and all of these turns, which are not more than the match
/// has. The rig comes back; where there was memory, it stands for the last of the states.
pub fn digests_after(
    alloc: Global,
    setup: &Setup,
    turns: &[Orders],
    rig: Rig,
    orders: &OrderTable,
) -> (Result<Digests, OutOfMemory>, Rig)
    requires begins { MayBegin setup.now (systems_of rig ⟦<dyn System as System>⟧) }
    requires few { length turns.now ≤ setup.now.turns }
    requires players { All (All (IsOrderOf setup.now)) turns.now }
    ensures digests { IfOk result.0 (λ digests. digests ≡ digests_of_turns setup.now turns.now) }
    ensures played { HasPlayed ⟦<dyn System as System>⟧ setup.now (state_after setup.now turns.now) result.0 rig result.1 }
{
    let mut board = Board::new(alloc, setup, rig);
    let played = start_turns(alloc, &mut board, orders, turns);
    let (_, rig) = board.finish();
    (played, rig)
}

/// The log of these turns of a match, which are not more than it has. The rig comes back; where there was memory, it stands for
/// the last state.
pub fn log_after(
    alloc: Global,
    setup: &Setup,
    turns: Turns,
    rig: Rig,
    orders: &OrderTable,
) -> (Result<Log, OutOfMemory>, Rig)
    requires begins { MayBegin setup.now (systems_of rig ⟦<dyn System as System>⟧) }
    requires few { length turns ≤ setup.now.turns }
    requires players { All (All (IsOrderOf setup.now)) turns }
    ensures log { IfOk result.0 (λ log. log ≡ log_of_turns setup.now turns) }
    ensures played { HasPlayed ⟦<dyn System as System>⟧ setup.now (state_after setup.now turns) result.0 rig result.1 }
{
    let (digests, rig) = digests_after(alloc, setup, turns.as_slice(), rig, orders);
    match digests {
        Ok(digests) => (Ok(Log { turns, digests }), rig),
        Err(error) => (Err(error), rig),
    }
}

/// The log of all the match's own turns. The rig comes back; where there was memory, it stands for the last state.
pub fn match_log(
    alloc: Global,
    setup: &Setup,
    rig: Rig,
    orders: &OrderTable,
) -> (Result<Log, OutOfMemory>, Rig)
    requires { MayBegin setup.now (systems_of rig ⟦<dyn System as System>⟧) }
    ensures log { IfOk result.0 (λ log. log ≡ log_of_turns setup.now (turns_of_match setup.now)) }
    ensures played { HasPlayed ⟦<dyn System as System>⟧ setup.now (last_state setup.now) result.0 rig result.1 }
{
    match match_turns(alloc, setup) {
        Ok(turns) => log_after(alloc, setup, turns, rig, orders),
        Err(error) => (Err(error), rig),
    }
}
