//! The territories of a match at a turn: a realm follows just the state of it.

ghost use Rattle.sim_play.specs.{Common.{after, IsSetup, IsValid, own_turns, realm_of, systems_of}, Playing.{HasPlayed, MayReach}, Realms.TellsRealm};
ghost use Rattle.std.specs.Prelude.{IfOk, string_bytes, ◌≡◌};

use crate::holdings::told;
use crate::matches::state_at;
use sim_base::{Global, OutOfMemory, Setup, State};
use sim_orders::OrderTable;
use sim_system::{Rig, System};
use sim_territory::Realm;

/// The lines of the territories of a turn of a match. The rig comes back; where there was memory, it stands for the state of
/// that turn.
pub fn realm_text(
    alloc: Global,
    setup: &Setup,
    turn: u32,
    rig: Rig,
    orders: &OrderTable,
) -> (Result<String, OutOfMemory>, Rig)
    requires { MayReach setup.now turn (systems_of rig ⟦<dyn System as System>⟧) }
    ensures text { IfOk result.0 (λ text. TellsRealm (realm_of setup.now (after setup.now (own_turns setup.now 0 turn))) (string_bytes text)) }
    ensures played { HasPlayed ⟦<dyn System as System>⟧ setup.now (after setup.now (own_turns setup.now 0 turn)) result.0 rig result.1 }
{
    let (state, rig) = state_at(alloc, setup, turn, rig, orders);
    match state {
        Ok(state) => (told_of(alloc, setup, &state), rig),
        Err(error) => (Err(error), rig),
    }
}

// Tells the territories of a state.
fn told_of(alloc: Global, setup: &Setup, state: &State) -> Result<String, OutOfMemory>
    requires limits { IsSetup setup.now }
    requires valid { IsValid setup.now state.now }
    ensures { IfOk result (λ text. TellsRealm (realm_of setup.now state.now) (string_bytes text)) }
{
    let mut realm = Realm::new(alloc, setup)?;
    realm.follow(state)?;
    told(alloc, &realm, setup.players)
}
