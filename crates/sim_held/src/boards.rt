//! The first state, and turns, on a board that is made for the call. The boxes of the systems and of the planners are made in each
//! body, since a function may hand out none. What the rooms of the ground hold lives on in whatever is held: the ground that was drawn, and
//! what searches have kept.

ghost use Rattle.sim_base.specs.{Limits.{IsSetup, IsValid}, Turn.{first_state as first_state_of, from, own_turns, turn as turn_by}};
ghost use Rattle.{sim_board.specs.Boards.{setup_in, systems}, sim_embed.specs.Facts.CanTurn, sim_held.specs.Clients.{CanPlay, CanReach, HasRun, IsMade}};
ghost use Rattle.{sim_held.specs.Clients.{IsSeated, life_of, RanOn, runs}, sim_system.specs.{Meanings.HaveKinds, RigWords.systems_of}};
ghost use Rattle.std.specs.Prelude.{IfOk, OnOk, ◌-◌, ◌≡◌};

use crate::copying::no_state;
use crate::planning::planned;
use crate::playing::Playing;
use crate::turns::play_turns;
use sim_base::{Global, OutOfMemory, PlayerCommand, Setup, State};
use sim_board::Board;
use sim_census::Census;
use sim_ground::{Contents, Ground, Rooms};
use sim_orders::{Handler, OrderTable, Planner};
use sim_range::Range;
use sim_system::{Rig, System};
use sim_watch::Watch;
use std::rc::Rc;

// Rooms that hold what was kept. Without memory for them that is let go.
fn rooms_of(alloc: Global, kept: &mut Contents) -> Result<Rc<Rooms>, OutOfMemory> {
    let rooms = Rooms::of(std::mem::replace(kept, Contents::new()));
    Ok(Rc::new(alloc, rooms)?)
}

/// The first state of a match.
pub fn first_state(alloc: Global, setup: &Setup) -> Result<State, OutOfMemory>
    requires { IsSetup setup.now }
    ensures { IfOk result (IsMade setup.now (first_state_of setup.now)) }
{
    let ground: Box<dyn System> = Box::new(alloc, Ground::new(alloc))?;
    let range: Box<dyn System> = Box::new(alloc, Range::looking(alloc))?;
    let watch: Box<dyn System> = Box::new(alloc, Watch::new(alloc))?;
    let census: Box<dyn System> = Box::new(alloc, Census::new(alloc))?;
    begun(alloc, setup, Rig::new(ground, range, watch, census))
}

// The first state, on a board with these systems.
fn begun(alloc: Global, setup: &Setup, rig: Rig) -> Result<State, OutOfMemory>
    requires limits { IsSetup setup.now }
    requires kinds { HaveKinds (systems_of rig ⟦<dyn System as System>⟧) }
    ensures state { IfOk result (λ state. state ≡ first_state_of setup.now) }
    ensures valid { IfOk result (IsValid setup.now) }
{
    let mut board = Board::new(alloc, setup, rig);
    board.start()?;
    let (state, _) = board.finish();
    Ok(state)
}

/// The state behind a turn with these commands.
pub fn after_turn(
    alloc: Global,
    setup: &Setup,
    state: State,
    commands: &[PlayerCommand],
    kept: &mut Contents,
) -> Result<State, OutOfMemory>
    requires can { CanTurn setup.now state commands.now }
    ensures { IfOk result (IsMade setup.now (turn_by setup.now state commands.now)) }
{
    let rooms = rooms_of(alloc, kept)?;
    let ground: Box<dyn System> = Box::new(alloc, Ground::sharing(alloc, rooms.clone()?))?;
    let range: Box<dyn System> = Box::new(alloc, Range::looking(alloc))?;
    let watch: Box<dyn System> = Box::new(alloc, Watch::new(alloc))?;
    let census: Box<dyn System> = Box::new(alloc, Census::new(alloc))?;
    let rig = Rig::new(ground, range, watch, census);
    let came = turned(alloc, setup, state, commands, rig);
    *kept = rooms.empty();
    came
}

// The state behind a turn over these systems, with a handler for each kind of command.
fn turned(
    alloc: Global,
    setup: &Setup,
    state: State,
    commands: &[PlayerCommand],
    rig: Rig,
) -> Result<State, OutOfMemory>
    requires can { CanTurn setup.now state commands.now }
    requires kinds { HaveKinds (systems_of rig ⟦<dyn System as System>⟧) }
    ensures { IfOk result (IsMade setup.now (turn_by setup.now state commands.now)) }
{
    let mut handlers = Vec::with_capacity(alloc, 7)?;
    for kind in 1..8u8 {
        let run: Planner = Box::new(alloc, planned)?;
        handlers.push(Handler { kind, run })?;
    }
    let orders = OrderTable::new(handlers);
    let board = Board::new(alloc, setup, rig);
    taken(alloc, board, state, commands, &orders)
}

// The state behind a turn, on a board that is not whole yet.
fn taken(
    alloc: Global,
    board: Board<'_>,
    state: State,
    commands: &[PlayerCommand],
    orders: &OrderTable,
) -> Result<State, OutOfMemory>
    requires can { CanTurn (setup_in board) state commands.now }
    requires kinds { HaveKinds (systems board ⟦<dyn System as System>⟧) }
    ensures { let setup = setup_in board.entry in IfOk result (IsMade setup (turn_by setup state commands.now)) }
{
    let mut board = board;
    board.adopt(state)?;
    sim_turn::turn(alloc, &mut board, orders, commands)?;
    let (new, mut rig) = board.finish();
    rig.clear();
    Ok(new)
}

/// The state at a turn that is not behind, after the match's own turns.
pub fn after_own(
    alloc: Global,
    setup: &Setup,
    state: State,
    until: u32,
    kept: &mut Contents,
) -> Result<State, OutOfMemory>
    requires can { CanReach setup.now state until }
    ensures { IfOk result (IsMade setup.now (from setup.now state (own_turns setup.now state.turn (until - state.turn)))) }
{
    let rooms = rooms_of(alloc, kept)?;
    let ground: Box<dyn System> = Box::new(alloc, Ground::sharing(alloc, rooms.clone()?))?;
    let range: Box<dyn System> = Box::new(alloc, Range::looking(alloc))?;
    let watch: Box<dyn System> = Box::new(alloc, Watch::new(alloc))?;
    let census: Box<dyn System> = Box::new(alloc, Census::new(alloc))?;
    let rig = Rig::new(ground, range, watch, census);
    let came = turned_on(alloc, setup, state, until, rig);
    *kept = rooms.empty();
    came
}

// The same over these systems, with a handler for each kind of command.
fn turned_on(
    alloc: Global,
    setup: &Setup,
    state: State,
    until: u32,
    rig: Rig,
) -> Result<State, OutOfMemory>
    requires can { CanReach setup.now state until }
    requires kinds { HaveKinds (systems_of rig ⟦<dyn System as System>⟧) }
    ensures { IfOk result (IsMade setup.now (from setup.now state (own_turns setup.now state.turn (until - state.turn)))) }
{
    let mut handlers = Vec::with_capacity(alloc, 7)?;
    for kind in 1..8u8 {
        let run: Planner = Box::new(alloc, planned)?;
        handlers.push(Handler { kind, run })?;
    }
    let orders = OrderTable::new(handlers);
    let board = Board::new(alloc, setup, rig);
    taken_on(alloc, board, state, until, &orders)
}

// The same on a board that is not whole yet.
fn taken_on(
    alloc: Global,
    board: Board<'_>,
    state: State,
    until: u32,
    orders: &OrderTable,
) -> Result<State, OutOfMemory>
    requires can { CanReach (setup_in board) state until }
    requires kinds { HaveKinds (systems board ⟦<dyn System as System>⟧) }
    ensures { let setup = setup_in board.entry in IfOk result (IsMade setup (from setup state (own_turns setup state.turn (until - state.turn)))) }
{
    let mut board = board;
    board.adopt(state)?;
    sim_turn::play(alloc, &mut board, orders, until)?;
    let (new, mut rig) = board.finish();
    rig.clear();
    Ok(new)
}

/// A client plays the turns that are released, at most so many, and the answer is how many these were. After want of memory its state
/// is lost.
pub fn play_seat(
    alloc: Global,
    setup: &Setup,
    playing: &mut Playing,
    most: u32,
    kept: &mut Contents,
) -> Result<u32, OutOfMemory>
    requires can { CanPlay setup.now playing.old }
    ensures { IfOk result (λ turns. HasRun setup.now (runs setup.now most (life_of playing.old)) playing.old turns playing.new) }
{
    let rooms = rooms_of(alloc, kept)?;
    let ground: Box<dyn System> = Box::new(alloc, Ground::sharing(alloc, rooms.clone()?))?;
    let range: Box<dyn System> = Box::new(alloc, Range::looking(alloc))?;
    let watch: Box<dyn System> = Box::new(alloc, Watch::new(alloc))?;
    let census: Box<dyn System> = Box::new(alloc, Census::new(alloc))?;
    let rig = Rig::new(ground, range, watch, census);
    let came = play_over(alloc, setup, playing, most, rig);
    *kept = rooms.empty();
    came
}

// The same over these systems, with a handler for each kind of command.
fn play_over(
    alloc: Global,
    setup: &Setup,
    playing: &mut Playing,
    most: u32,
    rig: Rig,
) -> Result<u32, OutOfMemory>
    requires can { CanPlay setup.now playing.old }
    requires kinds { HaveKinds (systems_of rig ⟦<dyn System as System>⟧) }
    ensures { IfOk result (λ turns. HasRun setup.now (runs setup.now most (life_of playing.old)) playing.old turns playing.new) }
{
    let mut handlers = Vec::with_capacity(alloc, 7)?;
    for kind in 1..8u8 {
        let run: Planner = Box::new(alloc, planned)?;
        handlers.push(Handler { kind, run })?;
    }
    let orders = OrderTable::new(handlers);
    play_on(alloc, Board::new(alloc, setup, rig), playing, most, &orders)
}

// The same on a board that is not whole yet. Meanwhile the board has the state.
fn play_on(
    alloc: Global,
    board: Board<'_>,
    playing: &mut Playing,
    most: u32,
    orders: &OrderTable,
) -> Result<u32, OutOfMemory>
    requires can { CanPlay (setup_in board) playing.old }
    requires kinds { HaveKinds (systems board ⟦<dyn System as System>⟧) }
    ensures ran { let run = runs (setup_in board.entry) most (life_of playing.old) in IfOk result (λ turns. RanOn run playing.old.outbox turns
        (life_of playing.new) playing.new.outbox) }
    ensures seated { OnOk result (IsSeated (setup_in board.entry) playing.new.state playing.new.seat) }
{
    let mut board = board;
    let state = std::mem::replace(&mut playing.state, no_state(alloc));
    board.adopt(state)?;
    let played = play_turns(alloc, orders, &mut board, playing, most)?;
    let (new, mut rig) = board.finish();
    rig.clear();
    playing.state = new;
    Ok(played)
}
