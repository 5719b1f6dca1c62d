//! The stage at which a client begins.

ghost use Rattle.{sim_base.specs.Limits.IsSetup, sim_client.specs.Lives.{Off, starts}, sim_held.specs.Clients.{IsStage, life_at}};
ghost use Rattle.std.specs.Prelude.{IfOk, if◌then◌else◌, min, ◌≡◌};

use crate::boards::first_state;
use crate::stage::Stage;
use sim_base::{Global, OutOfMemory, Setup};
use sim_client::begin;

// How many turns are released at the start.
fn first_done(setup: &Setup) -> u32
    ensures { result ≡ min setup.now.turns setup.now.delay }
{
    let delay = u32::from(setup.delay);
    if delay < setup.turns {
        delay
    } else {
        setup.turns
    }
}

/// On at the first state of the match, or off.
pub fn first_stage(alloc: Global, setup: &Setup, begins: bool) -> Result<Stage, OutOfMemory>
    requires { IsSetup setup.now }
    ensures life { IfOk result (λ stage. life_at stage ≡ (if begins then starts setup.now else Off)) }
    ensures sound { IfOk result (IsStage setup.now) }
{
    if !begins {
        return Ok(Stage::Off);
    }
    let state = first_state(alloc, setup)?;
    let ahead = first_done(setup);
    let seat = begin(alloc, ahead, ahead);
    Ok(Stage::On { state, seat })
}
