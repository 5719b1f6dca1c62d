//! Codes 4 to 6: the sources with all that they inherit.

ghost use Rattle.sim_setup.specs.{Common.origins_of, Refusals.AreResolvable, Setups.LibraryMeets, Setups.Refuses, Setups.roots_of};

use crate::fault::SetupFault;
use sim_merge::{Library, MergeFault};
use sim_tree::Source;
use std::alloc::Global;

/// The library of these sources, or the refusal of the first that has no resolved tree.
pub fn resolved<'a>(alloc: Global, sources: &[Source<'a>]) -> Result<Library<'a>, SetupFault>
    requires { AreResolvable sources.now }
    ensures { LibraryMeets result (origins_of sources.now) (roots_of (origins_of sources.now)) }
{
    match Library::resolve(alloc, sources) {
        Ok(library) => Ok(library),
        Err(fault) => Err(refusal(fault)),
    }
}

fn refusal(fault: MergeFault) -> SetupFault
    ensures { Refuses result fault }
{
    match fault {
        MergeFault::NoParent { index } => SetupFault::Refused { code: 4, index },
        MergeFault::Cycle { index } => SetupFault::Refused { code: 5, index },
        MergeFault::ChainTooLong { index } => SetupFault::Refused { code: 5, index },
        MergeFault::BadOp { index } => SetupFault::Refused { code: 6, index },
        MergeFault::OutOfMemory => SetupFault::OutOfMemory,
    }
}
