//! The first state of a match, and a turn from a stored state on. The boxes of the systems are made in each body, since a function may
//! hand out none.

ghost use Rattle.sim_base.specs.{Limits.IsSetup, Turn.{first_state, turn as turn_by}};
ghost use Rattle.sim_embed.specs.{Causes.{IsNoMatch, IsNoTurn}, Facts.{CanTurn, IsStored, StoresFirst, StoresTurn}};
ghost use Rattle.{sim_system.specs.{Meanings.HaveKinds, RigWords.systems_of}, std.specs.Prelude.{IfErr, IfOk}};

use crate::planning::planned;
use crate::reading::{commands_of, match_of, state_of};
use crate::{Refused, Stored};
use sim_base::{Global, OutOfMemory, PlayerCommand, Setup, State};
use sim_board::Board;
use sim_census::Census;
use sim_ground::Ground;
use sim_orders::{Handler, OrderTable, Planner};
use sim_range::Range;
use sim_system::{Rig, System};
use sim_watch::Watch;

/// The first state of the match that bytes are.
pub fn first(alloc: Global, game: &[u8]) -> Result<Stored, Refused>
    ensures is { IfOk result (StoresFirst game.now) }
    ensures refused { IfErr result (IsNoMatch game.now) }
{
    let setup = match_of(alloc, game)?;
    Ok(first_of(alloc, &setup)?)
}

// The first state, over new systems.
fn first_of(alloc: Global, setup: &Setup) -> Result<Stored, OutOfMemory>
    requires { IsSetup setup.now }
    ensures { IfOk result (IsStored setup.now (first_state setup.now)) }
{
    let ground: Box<dyn System> = Box::new(alloc, Ground::new(alloc))?;
    let range: Box<dyn System> = Box::new(alloc, Range::looking(alloc))?;
    let watch: Box<dyn System> = Box::new(alloc, Watch::new(alloc))?;
    let census: Box<dyn System> = Box::new(alloc, Census::new(alloc))?;
    begun(alloc, setup, Rig::new(ground, range, watch, census))
}

// The first state, on a board with these systems.
fn begun(alloc: Global, setup: &Setup, rig: Rig) -> Result<Stored, OutOfMemory>
    requires limits { IsSetup setup.now }
    requires kinds { HaveKinds (systems_of rig ⟦<dyn System as System>⟧) }
    ensures { IfOk result (IsStored setup.now (first_state setup.now)) }
{
    let mut board = Board::new(alloc, setup, rig);
    board.start()?;
    Stored::of(alloc, setup, board.scene().state)
}

/// The state behind a turn with these commands, from the state that bytes stand for.
pub fn turn(alloc: Global, game: &[u8], old: &[u8], commands: &[u8]) -> Result<Stored, Refused>
    ensures is { IfOk result (StoresTurn game.now old.now commands.now) }
    ensures refused { IfErr result (IsNoTurn game.now old.now commands.now) }
{
    let setup = match_of(alloc, game)?;
    let state = state_of(alloc, &setup, old, 0)?;
    if setup.turns <= state.turn {
        return Err(Refused::Over);
    }
    let commands = commands_of(alloc, setup.players, commands)?;
    Ok(turn_of(alloc, &setup, state, &commands)?)
}

// The state behind a turn, over new systems.
fn turn_of(
    alloc: Global,
    setup: &Setup,
    state: State,
    commands: &[PlayerCommand],
) -> Result<Stored, OutOfMemory>
    requires can { CanTurn setup.now state commands.now }
    ensures { IfOk result (IsStored setup.now (turn_by setup.now state commands.now)) }
{
    let ground: Box<dyn System> = Box::new(alloc, Ground::new(alloc))?;
    let range: Box<dyn System> = Box::new(alloc, Range::looking(alloc))?;
    let watch: Box<dyn System> = Box::new(alloc, Watch::new(alloc))?;
    let census: Box<dyn System> = Box::new(alloc, Census::new(alloc))?;
    let rig = Rig::new(ground, range, watch, census);
    played(alloc, setup, state, commands, rig)
}

// The state behind a turn over these systems, with a handler for each kind of command.
fn played(
    alloc: Global,
    setup: &Setup,
    state: State,
    commands: &[PlayerCommand],
    rig: Rig,
) -> Result<Stored, OutOfMemory>
    requires can { CanTurn setup.now state commands.now }
    requires kinds { HaveKinds (systems_of rig ⟦<dyn System as System>⟧) }
    ensures { IfOk result (IsStored setup.now (turn_by setup.now state commands.now)) }
{
    let mut handlers = Vec::with_capacity(alloc, 7)?;
    for kind in 1..8u8 {
        let run: Planner = Box::new(alloc, planned)?;
        handlers.push(Handler { kind, run })?;
    }
    let orders = OrderTable::new(handlers);
    taken(alloc, setup, state, commands, &orders, rig)
}

// The state behind a turn, on a board with these systems.
fn taken(
    alloc: Global,
    setup: &Setup,
    state: State,
    commands: &[PlayerCommand],
    orders: &OrderTable,
    rig: Rig,
) -> Result<Stored, OutOfMemory>
    requires can { CanTurn setup.now state commands.now }
    requires kinds { HaveKinds (systems_of rig ⟦<dyn System as System>⟧) }
    ensures { IfOk result (IsStored setup.now (turn_by setup.now state commands.now)) }
{
    let mut board = Board::new(alloc, setup, rig);
    board.adopt(state)?;
    sim_turn::turn(alloc, &mut board, orders, commands)?;
    Stored::of(alloc, setup, board.scene().state)
}
