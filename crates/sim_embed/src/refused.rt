//! Why a call over bytes has no answer. The causes come in the order in which the bytes are handed in.

ghost use Rattle.std.specs.Prelude.{◌≡◌};
ghost use Rattle.sim_embed.specs.declared.refused.Refused.TheVariants as causes;

use sim_base::OutOfMemory;
use sim_codec::StateFault;
use std::alloc::{AllocError, AllocFailed};

/// Why there is no answer.
#[derive(Clone, Copy, Debug, PartialEq, Eq)]
pub enum Refused {
    /// The bytes are no match, for this code, at this index of what the code speaks of.
    Match { code: u8, index: u32 },
    /// Bytes stand for no state of the match. `place` counts the states of the call from 0.
    State { fault: StateFault, place: u32 },
    /// The state is one behind which the match has no turn.
    Over,
    /// The bytes are no list of commands, at this item, counted from 1, or at 0 for the whole.
    Commands { index: u32 },
    /// Memory was refused.
    OutOfMemory,
}

impl From<OutOfMemory> for Refused {
    ghost from_gives = { λ _ refused. refused ≡ causes.OutOfMemory };

    fn from(_: OutOfMemory) -> Refused {
        Refused::OutOfMemory
    }
}

impl From<AllocError> for Refused {
    ghost from_gives = { λ _ refused. refused ≡ causes.OutOfMemory };

    fn from(_: AllocError) -> Refused {
        Refused::OutOfMemory
    }
}

impl<T: Drop> From<AllocFailed<T>> for Refused {
    ghost from_gives = { λ _ refused. refused ≡ causes.OutOfMemory };

    fn from(_: AllocFailed<T>) -> Refused {
        Refused::OutOfMemory
    }
}
