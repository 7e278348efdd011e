//! What C keeps.

ghost use Rattle.std.specs.Prelude.{◌≡◌, Some, None, true, false};
ghost use Rattle.std.specs.Option.{is_some, MatchOption};

use crate::block::Block;
use crate::handle::Handle;
use crate::held::Held;
use std::alloc::Global;
use std::mem::replace;

/// An engine, or none: all zeros is none. C keeps it, may move it, and never copies it or changes what is in it.
#[repr(C)]
pub struct Sandpiper {
    pub handle: Handle,
    pub is_open: bool,
    ghost agrees: { is_some handle.held ≡ is_open },
}

impl Sandpiper {
    /// Takes the engine out, if there is one.
    pub fn take(&mut self, alloc: Global) -> Option<Box<Held>>
        ensures taken { MatchOption result (self.old.handle.held ≡ None)
            (λ b. self.old.handle.held ≡ Some b.value) }
        ensures none { self.new.handle.held ≡ None }
    {
        if !self.is_open {
            return None;
        }
        let handle = replace(&mut self.handle, Handle::none());
        self.is_open = false;
        Some(handle.into_block().into_box(alloc))
    }

    /// Puts an engine in.
    pub fn put(&mut self, held: Box<Held>)
        requires { self.old.handle.held ≡ None }
        ensures { self.new.handle.held ≡ Some held.value }
    {
        let empty = replace(&mut self.handle, Handle::of(Block::of(held)));
        self.is_open = true;
        empty.forget();
    }
}
