//! How a tree is refused as a template. It stands apart since each part refuses by its own number.

use sim_base::OutOfMemory;

/// Why a tree is no template; or memory was refused.
#[derive(Clone, Copy, Debug, PartialEq, Eq)]
pub enum TraitFault {
    /// A child that must be there is not, or one is there without a value.
    Missing { part: u8 },
    /// A value is not of its kind or within its limits, or is no list of at most 64 known names.
    OutOfRange { part: u8 },
    /// Something stands in the tree that no part has a place for.
    UnknownPart,
    /// It would move and obstruct.
    Clash,
    /// Memory was refused.
    OutOfMemory,
}

impl From<OutOfMemory> for TraitFault {
    ghost use Rattle.std.specs.Prelude.{◌≡◌};
    ghost use Rattle.sim_traits.specs.declared.fault.TraitFault.TheVariants.{OutOfMemory};

    ghost from_gives = { λ _ fault. fault ≡ OutOfMemory };

    fn from(_: OutOfMemory) -> TraitFault {
        TraitFault::OutOfMemory
    }
}
