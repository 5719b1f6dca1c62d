//! The calls of a shelf or a sink in memory: they are counted, and each may be listed to fail. They stand apart since the
//! two count and fail alike: every call begins by counting itself here.

ghost use Rattle.std.specs.Prelude.{[], OnErr, OnOk, ◌++◌, ◌∷◌, ◌≡◌};
ghost use Rattle.sim_store.specs.Shelf.{calls_in, is_next_listed, listed_in, raised};

use crate::counts::one_more;
use std::alloc::{AllocError, Global};

/// How many calls there were, and which ones are to fail. The count stands still at the last value of its type, which is
/// then the number of every further call.
#[derive(Drop)]
pub struct Calls {
    made: u64,
    listed: Vec<u64>,
}

impl Calls {
    /// No call yet, and none that is to fail.
    pub fn new(alloc: Global) -> Calls
        ensures calls { calls_in result ≡ 0 }
        ensures listed { listed_in result ≡ [] }
    {
        Calls {
            made: 0,
            listed: Vec::new(alloc),
        }
    }

    /// Lists one call more to fail.
    pub fn list(&mut self, call: u64) -> Result<(), AllocError>
        ensures ok { OnOk result (listed_in self.new ≡ listed_in self.old ++ call ∷ []) }
        ensures err { OnErr result (listed_in self.new ≡ listed_in self.old) }
        ensures calls { calls_in self.new ≡ calls_in self.old }
    {
        self.listed.push(call)?;
        Ok(())
    }

    /// Counts a call, and answers whether it is listed.
    pub fn count(&mut self) -> bool
        ensures fails { result ≡ is_next_listed self.old }
        ensures calls { calls_in self.new ≡ raised 1 (calls_in self.old) }
        ensures listed { listed_in self.new ≡ listed_in self.old }
    {
        self.made = one_more(self.made);
        self.listed.contains(&self.made)
    }

    /// How many calls there were.
    pub fn made(&self) -> u64
        ensures { result ≡ calls_in self.now }
    {
        self.made
    }
}
