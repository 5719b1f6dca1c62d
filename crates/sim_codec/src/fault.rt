//! Why bytes are not loaded as a state. The causes come in the order in which they are tested.

ghost use Rattle.std.specs.Prelude.{◌≡◌};
ghost use Rattle.sim_codec.specs.declared.fault.StateFault.TheVariants as faults;

use sim_base::OutOfMemory;
use sim_bytes::Short;
use std::alloc::AllocError;

/// The bytes are not those of a state at all, or of another match; or no valid state of the match has this spelling; or
/// memory was refused.
#[derive(Clone, Copy, Debug, PartialEq, Eq)]
pub enum StateFault {
    NotState,
    OtherMatch,
    Grammar,
    OutOfMemory,
}

impl From<AllocError> for StateFault {
    ghost from_gives = { λ _ fault. fault ≡ faults.OutOfMemory };

    fn from(_: AllocError) -> StateFault {
        StateFault::OutOfMemory
    }
}

impl From<OutOfMemory> for StateFault {
    ghost from_gives = { λ _ fault. fault ≡ faults.OutOfMemory };

    fn from(_: OutOfMemory) -> StateFault {
        StateFault::OutOfMemory
    }
}

impl From<Short> for StateFault {
    ghost from_gives = { λ _ fault. fault ≡ faults.Grammar };

    fn from(_: Short) -> StateFault {
        StateFault::Grammar
    }
}
