//! How an economy is refused: by one number, which says where.

ghost use Rattle.std.specs.Prelude.{◌+◌, ◌^◌, ◌<◌, ◌≢◌};
ghost use Rattle.sim_stock.specs.Meets.{Tells};

use sim_base::OutOfMemory;
use std::alloc::AllocFailed;

/// Why bytes spell no economy of a match: 0 for everything but an item of the deeds, or the number of the first deed that
/// is refused, counted from 1; or memory was refused.
#[derive(Clone, Copy, Debug, PartialEq, Eq)]
pub enum EconomyFault {
    Refused { index: u32 },
    OutOfMemory,
}

impl From<OutOfMemory> for EconomyFault {
    ghost use Rattle.std.specs.Prelude.{◌≡◌};
    ghost use Rattle.sim_stock.specs.declared.fault.EconomyFault.TheVariants.{OutOfMemory};

    ghost from_gives = { λ _ fault. fault ≡ OutOfMemory };

    fn from(_: OutOfMemory) -> EconomyFault {
        EconomyFault::OutOfMemory
    }
}

impl<T: Drop> From<AllocFailed<T>> for EconomyFault {
    ghost use Rattle.std.specs.Prelude.{◌≡◌};
    ghost use Rattle.sim_stock.specs.declared.fault.EconomyFault.TheVariants.{OutOfMemory};

    ghost from_gives = { λ _ fault. fault ≡ OutOfMemory };

    fn from(_: AllocFailed<T>) -> EconomyFault {
        EconomyFault::OutOfMemory
    }
}

/// The refusal of a deed, by its place. One past 32 bits, which no list reaches, is out of memory.
pub fn refused(place: usize) -> EconomyFault
    ensures tells { Tells result place }
    ensures told { place + 1 < 2 ^ 32 → result ≢ EconomyFault.OutOfMemory }
{
    match u32::try_from(place) {
        Ok(place) if place < u32::MAX => EconomyFault::Refused { index: place + 1 },
        _ => EconomyFault::OutOfMemory,
    }
}
