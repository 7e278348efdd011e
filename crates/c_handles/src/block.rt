//! The block that a box has on the heap, without the box.

ghost use Rattle.std.specs.Prelude.{◌≡◌};

use std::alloc::Global;
use std::marker::Model;

/// A value on the C library's heap, and the right to free its block.
pub struct Block<T> {
    pub at: *mut T,
    pub ghost value: { T },
}

impl<T> Model for Block<T> {
    ghost use Rattle.std_alloc.specs.Box.Ownership.{box_owns};
    ghost use Rattle.std.specs.contracts.impls.GlobalAllocator.TheImpl.{ghosts};
    ghost use Rattle.c_handles.specs.Heap.{the_heap};

    ghost also_owns = { λ b. box_owns (ghosts.dealloc_token the_heap) T.row b.at b.value };
}

impl<T: Drop> Block<T> {
    /// Takes the box apart.
    pub fn of(whole: Box<T>) -> Block<T>
        ensures { result.value ≡ whole.value }
    {
        Block {
            at: Box::into_raw(whole),
        }
    }

    /// Makes the box again.
    pub fn into_box(self, alloc: Global) -> Box<T>
        ensures { result.value ≡ self.value }
    {
        let Block { at } = self;
        unsafe { Box::from_raw(alloc, at) }
    }
}
