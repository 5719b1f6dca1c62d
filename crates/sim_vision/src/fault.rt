//! Why the explored cells of a file are refused. The causes come in the order in which they are tested.

ghost use Rattle.std.specs.Prelude.{◌≡◌};
ghost use Rattle.sim_vision.specs.declared.fault.SightFault.TheVariants as faults;

use sim_base::OutOfMemory;

/// There is not one byte for each cell of each player; or a byte is neither 0 nor 1; or a cell that is visible has the byte 0;
/// or memory was refused.
#[derive(Clone, Copy, Debug, PartialEq, Eq)]
pub enum SightFault {
    Length,
    NotBit,
    Unseen,
    OutOfMemory,
}

impl From<OutOfMemory> for SightFault {
    ghost from_gives = { λ _ fault. fault ≡ faults.OutOfMemory };

    fn from(_: OutOfMemory) -> SightFault {
        SightFault::OutOfMemory
    }
}
