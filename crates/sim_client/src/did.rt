//! What a step of a client, or a message that it hears, comes to.

ghost use Rattle.std.specs.Prelude.{◌≡◌, [], ◌∷◌, IfOk};
ghost use Rattle.sim_client.specs.declared.did.Did.TheVariants as did;

use sim_base::{Global, Items, OutOfMemory};
use sim_wire::Up;

/// What a client says at once, in order.
pub type Ups = Items<Up>;

/// Nothing happened; or something did, and this is said.
///
/// A message without effect may have its line all the same: each refusal that is heard is printed.
#[derive(Debug, Drop)]
pub enum Did {
    Idle,
    Done { up: Ups },
}

/// What a client that was to play a turn did, and, if it did, the digest of the state that it came to.
#[derive(Debug, Drop)]
pub struct Played {
    pub did: Did,
    pub digest: Option<[u8; 16]>,
}

/// One message.
pub fn one(alloc: Global, up: Up) -> Result<Ups, OutOfMemory>
    ensures { IfOk result (λ ups. ups ≡ up ∷ []) }
{
    let mut ups = Items::new(alloc);
    ups.push(up)?;
    Ok(ups)
}

/// Something happened, and nothing is said.
pub fn silent(alloc: Global) -> Did
    ensures { result ≡ did.Done [] }
{
    Did::Done {
        up: Items::new(alloc),
    }
}
