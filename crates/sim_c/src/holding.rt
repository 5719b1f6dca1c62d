//! What is alike in all calls that hold something: how a handle is opened and closed, and how a call reaches what a handle holds.

ghost use Rattle.std.specs.Prelude.{None, option_map, ◌≡◌};
ghost use Rattle.sim_c.specs.Gives.{close_status, is_none, mapped, Opens};

use crate::Fault;
use crate::handle::Handle;
use crate::status::{BAD_HANDLE, DONE, NO_PLAYER, refuse};
use sim_embed::Refused;
use sim_held::Held;
use std::alloc::Global;

/// The status of a call of what a handle holds, or that it holds nothing of this kind. It holds the same thing again behind the call.
macro_rules! with_held {
    ($alloc:ident, $handle:ident; $($kind:pat => $call:expr),+) => {
        match $handle.take($alloc) {
            None => BAD_HANDLE,
            Some(mut held) => {
                let status = match &mut *held {
                    $($kind => $call,)+
                    _ => BAD_HANDLE,
                };
                $handle.put($alloc, held);
                status
            }
        }
    };
}

pub(crate) use with_held;

// Whether a handle holds nothing.
fn is_closed(alloc: Global, handle: &mut Handle) -> bool
    ensures closed { result ≡ is_none handle.old.held }
    ensures same { handle.new.held ≡ handle.old.held }
{
    match handle.take(alloc) {
        None => true,
        Some(held) => {
            handle.put(alloc, held);
            false
        }
    }
}

/// Has a closed handle hold what was made.
pub fn open(
    alloc: Global,
    handle: &mut Handle,
    made: Result<Option<Box<Held>>, Refused>,
    fault: &mut Fault,
) -> i32
    ensures { Opens handle.old.held handle.new.held result fault.old fault.new (mapped (option_map (λ made. made.value)) made) }
{
    if !is_closed(alloc, handle) {
        return BAD_HANDLE;
    }
    match made {
        Ok(None) => NO_PLAYER,
        Ok(Some(held)) => {
            handle.put(alloc, held);
            DONE
        }
        Err(refused) => refuse(&refused, fault),
    }
}

/// Closes a handle, and gives the memory of what it held back.
#[unsafe(no_mangle)]
pub extern "C" fn simcore_close(alloc: Global, handle: &mut Handle) -> i32
    ensures closed { handle.new.held ≡ None }
    ensures status { result ≡ close_status handle.old.held }
{
    match handle.take(alloc) {
        None => BAD_HANDLE,
        Some(held) => {
            drop(held);
            DONE
        }
    }
}
