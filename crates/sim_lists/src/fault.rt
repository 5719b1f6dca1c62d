//! How a list is refused: by one number, which says where.

ghost use Rattle.std.specs.Prelude.{◌+◌, ◌^◌, ◌<◌, ◌≢◌};
ghost use Rattle.sim_lists.specs.Meets.{Tells};

use sim_base::OutOfMemory;
use std::alloc::AllocFailed;

/// Why bytes spell no list: 0 for the bytes, the object and its numbers, or the number of the first item that is
/// refused, counted from 1; or memory was refused.
#[derive(Clone, Copy, Debug, PartialEq, Eq)]
pub enum ListFault {
    Refused { index: u32 },
    OutOfMemory,
}

impl From<OutOfMemory> for ListFault {
    ghost use Rattle.std.specs.Prelude.{◌≡◌};
    ghost use Rattle.sim_lists.specs.declared.fault.ListFault.TheVariants.{OutOfMemory};

    ghost from_gives = { λ _ fault. fault ≡ OutOfMemory };

    fn from(_: OutOfMemory) -> ListFault {
        ListFault::OutOfMemory
    }
}

impl<T: Drop> From<AllocFailed<T>> for ListFault {
    ghost use Rattle.std.specs.Prelude.{◌≡◌};
    ghost use Rattle.sim_lists.specs.declared.fault.ListFault.TheVariants.{OutOfMemory};

    ghost from_gives = { λ _ fault. fault ≡ OutOfMemory };

    fn from(_: AllocFailed<T>) -> ListFault {
        ListFault::OutOfMemory
    }
}

/// The refusal of an item, by its place. One past 32 bits, which no list reaches, is want of memory.
pub fn refused(place: usize) -> ListFault
    ensures tells { Tells result place }
    ensures told { place + 1 < 2 ^ 32 → result ≢ ListFault.OutOfMemory }
{
    match u32::try_from(place) {
        Ok(place) if place < u32::MAX => ListFault::Refused { index: place + 1 },
        _ => ListFault::OutOfMemory,
    }
}
