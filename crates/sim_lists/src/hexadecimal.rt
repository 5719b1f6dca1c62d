//! Digests, states and raw bytes as text.

ghost use Rattle.std.specs.Prelude.{false, IfOk, IsOk, ◌≡◌};
ghost use Rattle.sim_lists.specs.Arrivals.{digest_of as digest_of_text, digest_takes, hex_of, hex_takes, raw_of as raw_of_text, raw_takes};
ghost use Rattle.sim_lists.specs.Arrivals.{state_of as state_of_text, state_takes};

use sim_base::{Global, Items, MAX_STATE, OutOfMemory};
use sim_bytes::read_hex;
use sim_wire::{Bytes, MAX_FRAME};

// The bytes of a text of pairs of digits.
fn bytes_of(alloc: Global, text: &str) -> Result<Option<Bytes>, OutOfMemory>
    ensures value { IfOk result (λ found. found ≡ hex_of text.now) }
    ensures memory { hex_takes text.now ≡ false → IsOk result }
{
    match read_hex(alloc, text)? {
        Some(bytes) => Ok(Some(Items::from_items(bytes))),
        None => Ok(None),
    }
}

/// The digest that a text of 32 digits spells.
pub fn digest_of(alloc: Global, text: &str) -> Result<Option<[u8; 16]>, OutOfMemory>
    ensures value { IfOk result (λ found. found ≡ digest_of_text text.now) }
    ensures memory { digest_takes text.now ≡ false → IsOk result }
{
    if text.len() != 32 {
        return Ok(None);
    }
    let Some(bytes) = bytes_of(alloc, text)? else {
        return Ok(None);
    };
    let mut digest = [0; 16];
    digest.copy_from_slice(bytes.as_slice());
    Ok(Some(digest))
}

/// The bytes of a state that a text spells, of which there are not more than any state has.
pub fn state_of(alloc: Global, text: &str) -> Result<Option<Bytes>, OutOfMemory>
    ensures value { IfOk result (λ found. found ≡ state_of_text text.now) }
    ensures memory { state_takes text.now ≡ false → IsOk result }
{
    if text.len() > 2 * MAX_STATE {
        return Ok(None);
    }
    bytes_of(alloc, text)
}

/// The bytes that a text spells, of which there are not more than any frame has.
pub fn raw_of(alloc: Global, text: &str) -> Result<Option<Bytes>, OutOfMemory>
    ensures value { IfOk result (λ found. found ≡ raw_of_text text.now) }
    ensures memory { raw_takes text.now ≡ false → IsOk result }
{
    if text.len() > 2 * MAX_FRAME {
        return Ok(None);
    }
    bytes_of(alloc, text)
}
