//! What C holds from one call to the next: the address of a value. The three calls that reach the address have a proof by hand; all
//! others swap what is held for something else, and are plain code over a box.
//!
//! C owes this of a handle, and nothing tells when it fails: that it is all zeroes or was left so by a call of this library, that no copy of
//! it is used, and that no two calls have it at once.

ghost use Rattle.sim_c.specs.Owned.{handle_owns, Value, value_code};
ghost use Rattle.std.specs.{Coded.coded_option, declared.option.Option.{Option, TheVariants.{None, Some}}, Prelude.{MatchOption, ◌≡◌}};

use crate::kept::Kept;
use sim_held::Held;
use std::alloc::Global;
use std::marker::Model;
use std::mem::replace;

/// Where a value lies. A handle at null is closed: it holds nothing.
#[repr(C)]
pub struct Handle {
    at: *mut u8,
    pub ghost held: { Option Value } by { coded_option value_code },
}

impl Model for Handle {
    ghost also_owns = { λ handle. handle_owns handle.at handle.held };
}

impl Handle {
    /// The handle that is closed.
    pub fn closed() -> Handle
        ensures { result.held ≡ None }
    {
        Handle {
            at: std::ptr::null_mut(),
        }
    }

    // The handle of a value.
    fn of(kept: Kept<Held, Global>) -> Handle
        ensures { result.held ≡ Some kept.value }
    {
        let Kept { at, alloc: _ } = kept;
        Handle { at: at as *mut u8 }
    }

    /// What it holds.
    pub fn into_kept(self, alloc: Global) -> Option<Kept<Held, Global>>
        ensures { MatchOption result (self.held ≡ None) (λ kept. self.held ≡ Some kept.value) }
    {
        let Handle { at } = self;
        if at.is_null() {
            None
        } else {
            Some(Kept {
                at: at as *mut Held,
                alloc,
            })
        }
    }

    /// Has it hold something else, or nothing, and gives what it held.
    pub fn swap(&mut self, alloc: Global, next: Option<Box<Held>>) -> Option<Box<Held>>
        ensures next { MatchOption next (self.new.held ≡ None) (λ held. self.new.held ≡ Some held.value) }
        ensures last { MatchOption result (self.old.held ≡ None) (λ held. self.old.held ≡ Some held.value) }
    {
        let next = match next {
            None => Handle::closed(),
            Some(held) => Handle::of(Kept::of(held)),
        };
        match replace(self, next).into_kept(alloc) {
            None => None,
            Some(kept) => Some(kept.into_box()),
        }
    }

    /// Closes it, and gives what it held.
    pub fn take(&mut self, alloc: Global) -> Option<Box<Held>>
        ensures next { self.new.held ≡ None }
        ensures last { MatchOption result (self.old.held ≡ None) (λ held. self.old.held ≡ Some held.value) }
    {
        self.swap(alloc, None)
    }

    /// Has it hold a value, and drops what it held.
    pub fn put(&mut self, alloc: Global, held: Box<Held>)
        ensures { self.new.held ≡ Some held.value }
    {
        drop(self.swap(alloc, Some(held)));
    }
}
