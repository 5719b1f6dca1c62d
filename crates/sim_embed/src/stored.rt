//! A state as its bytes and their digest, and what tells a state without them.

ghost use Rattle.{sim_base.specs.Limits.IsValid, sim_embed.specs.Facts.{IsStamp, IsStored}, std.specs.Prelude.IfOk};

use sim_base::{Global, OutOfMemory, Setup, State};
use sim_codec::{digest, spell};

/// The bytes of a state, and MD5 of them.
#[derive(Drop)]
pub struct Stored {
    pub bytes: Vec<u8>,
    pub digest: [u8; 16],
}

impl Stored {
    /// A state of a match, as it is stored.
    pub fn of(alloc: Global, setup: &Setup, state: &State) -> Result<Stored, OutOfMemory>
        requires { IsValid setup.now state.now }
        ensures { IfOk result (IsStored setup.now state.now) }
    {
        Ok(Stored {
            bytes: spell(alloc, setup, state)?,
            digest: digest(setup, state),
        })
    }
}

/// MD5 of the bytes of a state, and its turn: what clients compare.
#[derive(Clone, Copy, Debug, PartialEq, Eq)]
pub struct Stamp {
    pub digest: [u8; 16],
    pub turn: u32,
}

impl Stamp {
    /// The stamp of a state of a match.
    pub fn of(setup: &Setup, state: &State) -> Stamp
        requires { IsValid setup.now state.now }
        ensures { IsStamp setup.now state.now result }
    {
        Stamp {
            digest: digest(setup, state),
            turn: state.turn,
        }
    }
}
