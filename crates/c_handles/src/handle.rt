//! A pointer that owns what it points to, or nothing.

ghost use Rattle.std.specs.Prelude.{◌≡◌, Option, Some, None, IsSome};
ghost use Rattle.c_handles.specs.declared.held.Held.{Held as Inner};

use crate::block::Block;
use crate::held::Held;
use std::marker::Model;
use std::ptr::null_mut;

/// A pointer to what C never sees, and owns. It cannot be let go: who has one ends it by `into_block` or by `forget`.
#[repr(C)]
pub struct Handle {
    at: *mut u8,
    pub ghost held: { Option Inner },
}

impl Model for Handle {
    ghost use Rattle.c_handles.specs.Owned.{owned};

    ghost also_owns = { λ h. owned h.at h.held };
}

impl Handle {
    /// Owns nothing.
    pub fn none() -> Handle
        ensures { result.held ≡ None }
    {
        Handle { at: null_mut() }
    }

    /// Owns the block.
    pub fn of(block: Block<Held>) -> Handle
        ensures { result.held ≡ Some block.value }
    {
        let Block { at } = block;
        Handle { at: at as *mut u8 }
    }

    /// Gives up the block that it owns.
    pub fn into_block(self) -> Block<Held>
        requires { IsSome self.held }
        ensures { self.held ≡ Some result.value }
    {
        let Handle { at } = self;
        Block {
            at: at as *mut Held,
        }
    }

    /// Ends a handle that owns nothing.
    pub fn forget(self)
        requires { self.held ≡ None }
    {
        let Handle { at: _ } = self;
    }
}
