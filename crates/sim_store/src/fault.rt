//! What can go wrong at a shelf or a sink, and at a whole file or text. The faults of a single call and those of a whole
//! task are different types, since a whole task knows more: whether it was reading or writing.

ghost use Rattle.std.specs.Prelude.{◌≡◌};
ghost use Rattle.sim_store.specs.declared.fault.{ShelfFault.TheVariants.OutOfMemory as no_shelf_memory, StoreFault.TheVariants.OutOfMemory as no_memory};

use std::alloc::AllocError;

/// A call of a shelf or a sink failed, which it counted.
#[derive(Clone, Copy, Debug, PartialEq, Eq)]
pub struct Failed;

/// Why a shelf did not open or make a file. Want of memory is no fault, and is not counted.
#[derive(Clone, Copy, Debug, PartialEq, Eq)]
pub enum ShelfFault {
    /// The call failed, which the shelf counted.
    Failed,
    /// The shelf found no memory.
    OutOfMemory,
}

/// Why a whole file was not read, or a whole file or text not written.
#[derive(Clone, Copy, Debug, PartialEq, Eq)]
pub enum StoreFault {
    /// Opening or reading failed.
    ReadFault,
    /// Making, writing or closing failed.
    WriteFault,
    /// The file has more bytes than a file may have.
    TooLong,
    /// There is no file of this name.
    NoFile,
    /// Memory was refused.
    OutOfMemory,
}

impl From<AllocError> for ShelfFault {
    ghost from_gives = { λ _ fault. fault ≡ no_shelf_memory };

    fn from(_: AllocError) -> ShelfFault {
        ShelfFault::OutOfMemory
    }
}

impl From<AllocError> for StoreFault {
    ghost from_gives = { λ _ fault. fault ≡ no_memory };

    fn from(_: AllocError) -> StoreFault {
        StoreFault::OutOfMemory
    }
}
