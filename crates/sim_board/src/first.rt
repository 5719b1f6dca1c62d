//! The state in which a match begins.

ghost use Rattle.std.specs.Prelude.{IfOk, ◌≡◌};
ghost use Rattle.sim_base.specs.{Limits.IsSetup, Limits.IsValid, Turn.first_state as first_state_of};

use crate::change::create;
use crate::row::Birth;
use sim_base::{Global, Items, OutOfMemory, Setup, State};

/// The entities of the match file are made one by one.
pub fn first_state(alloc: Global, setup: &Setup) -> Result<State, OutOfMemory>
    requires { IsSetup setup.now }
    ensures state { IfOk result (λ state. state ≡ first_state_of setup.now) }
    ensures valid { IfOk result (IsValid setup.now) }
{
    let mut state = State {
        turn: 0,
        next: 2,
        word: setup.seed,
        rows: Items::new(alloc),
    };
    for first in setup.first.as_slice() {
        let birth = Birth {
            number: first.template,
            at: first.at,
            owner: first.owner,
        };
        create(alloc, setup, &mut state, &birth)?;
    }
    Ok(state)
}
