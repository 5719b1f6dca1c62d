//! How a match file is refused. It stands apart since each pass refuses in its own code.

ghost use Rattle.std.specs.Prelude.{◌<◌, ◌^◌, ◌≢◌};
ghost use Rattle.sim_setup.specs.Setups.{Tells};

use sim_base::OutOfMemory;
use std::alloc::{AllocError, AllocFailed};

/// Why bytes have no setup: a code from 1 to 11, with the place of a key or the number of an item; or memory was
/// refused.
#[derive(Clone, Copy, Debug, PartialEq, Eq)]
pub enum SetupFault {
    Refused { code: u8, index: u32 },
    OutOfMemory,
}

impl From<OutOfMemory> for SetupFault {
    ghost use Rattle.std.specs.Prelude.{◌≡◌};
    ghost use Rattle.sim_setup.specs.declared.fault.SetupFault.TheVariants.{OutOfMemory};

    ghost from_gives = { λ _ fault. fault ≡ OutOfMemory };

    fn from(_: OutOfMemory) -> SetupFault {
        SetupFault::OutOfMemory
    }
}

impl From<AllocError> for SetupFault {
    ghost use Rattle.std.specs.Prelude.{◌≡◌};
    ghost use Rattle.sim_setup.specs.declared.fault.SetupFault.TheVariants.{OutOfMemory};

    ghost from_gives = { λ _ fault. fault ≡ OutOfMemory };

    fn from(_: AllocError) -> SetupFault {
        SetupFault::OutOfMemory
    }
}

impl<T: Drop> From<AllocFailed<T>> for SetupFault {
    ghost use Rattle.std.specs.Prelude.{◌≡◌};
    ghost use Rattle.sim_setup.specs.declared.fault.SetupFault.TheVariants.{OutOfMemory};

    ghost from_gives = { λ _ fault. fault ≡ OutOfMemory };

    fn from(_: AllocFailed<T>) -> SetupFault {
        SetupFault::OutOfMemory
    }
}

/// The refusal of an item by its number. A number past 32 bits, which no file in memory reaches, is want of memory.
pub fn refused(code: u8, index: usize) -> SetupFault
    ensures tells { Tells result code index }
    ensures told { index < 2 ^ 32 → result ≢ SetupFault.OutOfMemory }
{
    match u32::try_from(index) {
        Ok(index) => SetupFault::Refused { code, index },
        Err(_) => SetupFault::OutOfMemory,
    }
}
