//! A box as its address and what frees it. A raw pointer is followed by no proof of the compiler's own, so the two calls that turn a box
//! into one and back stand here alone, for every type, and each has a proof by hand.

ghost use Rattle.std.specs.Prelude.{◌≡◌};
ghost use Rattle.std_alloc.specs.Box.Ownership.{box_owns};

use std::alloc::Allocator;
use std::marker::Model;

/// A box that is taken apart. It owns what the box owned, and is made a box again to free it.
pub struct Kept<T, A: Allocator> {
    pub at: *mut T,
    pub alloc: A,
    pub ghost value: { T },
}

impl<T, A: Allocator> Model for Kept<T, A> {
    ghost also_owns = { λ kept. box_owns (A.dealloc_token kept.alloc) T.row kept.at kept.value };
}

impl<T: Drop, A: Allocator> Kept<T, A> {
    /// Takes a box apart.
    pub fn of(boxed: Box<T, A>) -> Kept<T, A>
        ensures { result.value ≡ boxed.value }
    {
        let (at, alloc) = Box::into_raw_with_allocator(boxed);
        Kept { at, alloc }
    }

    /// Makes it a box again.
    pub fn into_box(self) -> Box<T, A>
        ensures { result.value ≡ self.value }
    {
        let Kept { at, alloc } = self;
        unsafe { Box::from_raw(alloc, at) }
    }
}
