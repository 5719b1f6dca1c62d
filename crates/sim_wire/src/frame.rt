//! Frames made and read. Bytes are read only where they have the form of a frame, so that memory is taken for frames alone,
//! and of these for messages with entities or a state. The reader itself is lax: it is enough that it reads back what is framed.

ghost use Rattle.std.specs.Prelude.{IfErr, IfOk, List, true, ℕ, ◌≡◌};
ghost use Rattle.sim_wire.specs.{Common.DownOf, Common.UpOf, Memory.down_carries, Memory.up_carries, Reading.IsDownFrame, Reading.IsSmallDown};
ghost use Rattle.sim_wire.specs.{Reading.IsSmallUp, Reading.IsUpFrame, Refusals.GivesMessage, Refusals.RefusedFor};

use crate::form::{is_down_form, is_up_form};
use crate::length::{SmallDown, SmallUp};
use crate::take::{take_down, take_up};
use crate::{Down, Up, WireFault};
use sim_base::{Global, OutOfMemory};
use sim_bytes::Take;

/// How many bytes a frame has at most.
pub const MAX_FRAME: usize = 2_400_000;

/// The frame of what a client says.
pub fn frame_up(alloc: Global, up: &Up) -> Result<Vec<u8>, OutOfMemory>
    requires { IsSmallUp up.now }
    ensures { IfOk result (λ bytes. IsUpFrame bytes.items up.now) }
{
    let mut out = Vec::new(alloc);
    SmallUp { up }.tell(&mut out)?;
    Ok(out)
}

/// The frame of what the server says.
pub fn frame_down(alloc: Global, down: &Down) -> Result<Vec<u8>, OutOfMemory>
    requires { IsSmallDown down.now }
    ensures { IfOk result (λ bytes. IsDownFrame bytes.items down.now) }
{
    let mut out = Vec::new(alloc);
    SmallDown { down }.tell(&mut out)?;
    Ok(out)
}

/// What the client says of which these bytes are the frame.
pub fn unframe_up(alloc: Global, bytes: &[u8]) -> Result<Up, WireFault>
    ensures ok { IfOk result (IsUpFrame bytes.now) }
    ensures small { IfOk result IsSmallUp }
    ensures reads { (up : UpOf (List ℕ)) → IsUpFrame bytes.now up → GivesMessage up result }
    ensures err { IfErr result (RefusedFor IsUpFrame bytes.now) }
    ensures memory { (up : UpOf (List ℕ)) → IsUpFrame bytes.now up → result ≡ Err WireFault.OutOfMemory → up_carries up ≡ true }
{
    if bytes.len() > MAX_FRAME {
        return Err(WireFault::TooLong);
    }
    if !is_up_form(bytes) {
        return Err(WireFault::NotFrame);
    }
    let mut from = Take::new(bytes);
    take_up(alloc, &mut from)
}

/// What the server says of which these bytes are the frame.
pub fn unframe_down(alloc: Global, bytes: &[u8]) -> Result<Down, WireFault>
    ensures ok { IfOk result (IsDownFrame bytes.now) }
    ensures small { IfOk result IsSmallDown }
    ensures reads { (down : DownOf (List ℕ)) → IsDownFrame bytes.now down → GivesMessage down result }
    ensures err { IfErr result (RefusedFor IsDownFrame bytes.now) }
    ensures memory { (down : DownOf (List ℕ)) → IsDownFrame bytes.now down → result ≡ Err WireFault.OutOfMemory → down_carries down ≡ true }
{
    if bytes.len() > MAX_FRAME {
        return Err(WireFault::TooLong);
    }
    if !is_down_form(bytes) {
        return Err(WireFault::NotFrame);
    }
    let mut from = Take::new(bytes);
    take_down(alloc, &mut from)
}
