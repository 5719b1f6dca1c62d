//! Changes that fit and asks that are allowed, found at run time. What a test does to a board, it does by these.

ghost use Rattle.sim_base.specs.declared.change.Change.TheVariants as change;
ghost use Rattle.std.specs.Prelude.{IsTrue, OnOk};
ghost use Rattle.{sim_base.specs.Limits.IsLooselyValid, sim_board.specs.Boards.IsWhole, sim_plans.specs.RowChanges.Fits, sim_system.specs.Meanings.MayAsk};

use sim_base::{Change, OutOfMemory, Setup, State};
use sim_board::Board;
use sim_plans::{find_row, is_inside};
use sim_system::{Answer, Ask, System};

// Whether a row is alive, and the owner is one of the match.
fn can_own(setup: &Setup, state: &State, id: u32, owner: u8) -> bool
    requires { IsLooselyValid setup.now state.now }
    ensures { IsTrue result → Fits setup.now state.now (change.Owner id owner) }
{
    match find_row(state, id) {
        Some(_) => owner <= setup.players,
        None => false,
    }
}

/// Whether a row is alive.
pub fn can_leave(setup: &Setup, state: &State, id: u32) -> bool
    requires { IsLooselyValid setup.now state.now }
    ensures { IsTrue result → Fits setup.now state.now (change.Remove id) }
{
    find_row(state, id).is_some()
}

// Whether the change is one of these two, and fits.
fn fits(setup: &Setup, state: &State, change: &Change) -> bool
    requires { IsLooselyValid setup.now state.now }
    ensures { IsTrue result → Fits setup.now state.now change.now }
{
    match change {
        Change::Owner { id, owner } => can_own(setup, state, *id, *owner),
        Change::Remove { id } => can_leave(setup, state, *id),
        _ => false,
    }
}

/// Makes a change, if it fits, and says whether it did.
pub fn change(board: &mut Board<'_>, change: Change) -> Result<bool, OutOfMemory>
    requires { IsWhole board.old ⟦<dyn System as System>⟧ }
    ensures { OnOk result (IsWhole board.new ⟦<dyn System as System>⟧) }
{
    let scene = board.scene();
    if !fits(scene.setup, scene.state, &change) {
        return Ok(false);
    }
    board.apply(change)?;
    Ok(true)
}

// Whether the ask is one of these two, and allowed.
fn may_ask(setup: &Setup, state: &State, ask: &Ask) -> bool
    requires { IsLooselyValid setup.now state.now }
    ensures { IsTrue result → MayAsk setup.now state.now ask.now }
{
    match ask {
        Ask::Open { cell } => cell.x < setup.land.width && cell.z < setup.land.depth,
        Ask::Within { at, .. } => is_inside(&setup.land, at),
        _ => false,
    }
}

/// The answer to an ask that is allowed.
pub fn answer(board: &Board<'_>, ask: &Ask) -> Result<Option<Answer>, OutOfMemory>
    requires { IsWhole board.now ⟦<dyn System as System>⟧ }
{
    let scene = board.scene();
    if !may_ask(scene.setup, scene.state, ask) {
        return Ok(None);
    }
    Ok(Some(scene.ask(ask)?))
}
