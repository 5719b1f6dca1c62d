//! What keeps a tree from being laid over another one, and templates from being resolved.

use sim_base::OutOfMemory;
use std::alloc::{AllocError, AllocFailed};

/// Why a tree is not laid over another one.
#[derive(Clone, Copy, Debug, PartialEq, Eq)]
pub enum OverlayFault {
    /// An operation that has no result: there is no number below it, or none above, or the result is out of range.
    BadOp,
    /// Memory was refused.
    OutOfMemory,
}

/// Why templates are not resolved. The index is the number of a template, the least one with that cause.
#[derive(Clone, Copy, Debug, PartialEq, Eq)]
pub enum MergeFault {
    /// Its parent is not among the templates.
    NoParent { index: u32 },
    /// Its chain of parents comes back to a member.
    Cycle { index: u32 },
    /// Its chain has more than 16 members.
    ChainTooLong { index: u32 },
    /// An operation in its tree, or in one that it inherits, has no result.
    BadOp { index: u32 },
    /// Memory was refused.
    OutOfMemory,
}

impl From<OutOfMemory> for OverlayFault {
    ghost use Rattle.std.specs.Prelude.{◌≡◌};
    ghost use Rattle.sim_merge.specs.declared.fault.OverlayFault.TheVariants.{OutOfMemory};

    ghost from_gives = { λ _ fault. fault ≡ OutOfMemory };

    fn from(_: OutOfMemory) -> OverlayFault {
        OverlayFault::OutOfMemory
    }
}

impl From<AllocError> for OverlayFault {
    ghost use Rattle.std.specs.Prelude.{◌≡◌};
    ghost use Rattle.sim_merge.specs.declared.fault.OverlayFault.TheVariants.{OutOfMemory};

    ghost from_gives = { λ _ fault. fault ≡ OutOfMemory };

    fn from(_: AllocError) -> OverlayFault {
        OverlayFault::OutOfMemory
    }
}

impl From<OutOfMemory> for MergeFault {
    ghost use Rattle.std.specs.Prelude.{◌≡◌};
    ghost use Rattle.sim_merge.specs.declared.fault.MergeFault.TheVariants.{OutOfMemory};

    ghost from_gives = { λ _ fault. fault ≡ OutOfMemory };

    fn from(_: OutOfMemory) -> MergeFault {
        MergeFault::OutOfMemory
    }
}

impl From<AllocError> for MergeFault {
    ghost use Rattle.std.specs.Prelude.{◌≡◌};
    ghost use Rattle.sim_merge.specs.declared.fault.MergeFault.TheVariants.{OutOfMemory};

    ghost from_gives = { λ _ fault. fault ≡ OutOfMemory };

    fn from(_: AllocError) -> MergeFault {
        MergeFault::OutOfMemory
    }
}

impl<T: Drop> From<AllocFailed<T>> for MergeFault {
    ghost use Rattle.std.specs.Prelude.{◌≡◌};
    ghost use Rattle.sim_merge.specs.declared.fault.MergeFault.TheVariants.{OutOfMemory};

    ghost from_gives = { λ _ fault. fault ≡ OutOfMemory };

    fn from(_: AllocFailed<T>) -> MergeFault {
        MergeFault::OutOfMemory
    }
}
