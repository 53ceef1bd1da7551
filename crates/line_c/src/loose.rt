//! A box in two parts: its pointer, which C can keep, and its allocator.
ghost use Rattle.std.specs.Prelude.{◌≡◌};
ghost use Rattle.std_alloc.specs.Box.Ownership.{box_owns};

use std::alloc::Allocator;
use std::marker::Model;

/// A value on the heap that no box owns. It is to be made a box again, since nothing else drops it.
pub struct Loose<V, H: Allocator> {
    pub at: *mut V,
    pub alloc: H,
    pub ghost value: { V },
}

impl<V, H: Allocator> Model for Loose<V, H> {
    ghost also_owns = { λ l. box_owns (H.dealloc_token l.alloc) V.row l.at l.value };
}

impl<V: Drop, H: Allocator> Loose<V, H> {
    /// Takes a box apart.
    pub fn of(whole: Box<V, H>) -> Loose<V, H>
        ensures { result.value ≡ whole.value }
    {
        let (at, alloc) = Box::into_raw_with_allocator(whole);
        Loose { at, alloc }
    }

    /// Returns the box again.
    pub fn into_box(self) -> Box<V, H>
        ensures { result.value ≡ self.value }
    {
        let Loose { at, alloc } = self;
        unsafe { Box::from_raw(alloc, at) }
    }
}
