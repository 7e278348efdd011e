//! The ticket that C keeps.

ghost use Rattle.std.specs.Prelude.{◌≡◌, Some, None, true, false};
ghost use Rattle.std.specs.Option.{is_some, MatchOption};

use crate::block::Block;
use crate::ticket_handle::TicketHandle;
use std::alloc::Global;
use std::mem::replace;
use table_scans::Ticket;

/// A ticket, or none: all zeros is none. C keeps it, may move it, and never copies it or changes what is in it.
#[repr(C)]
pub struct SandpiperTicket {
    pub handle: TicketHandle,
    pub is_taken: bool,
    ghost agrees: { is_some handle.held ≡ is_taken },
}

impl SandpiperTicket {
    /// Takes the ticket out, if there is one.
    pub fn take(&mut self, alloc: Global) -> Option<Box<Ticket>>
        ensures taken { MatchOption result (self.old.handle.held ≡ None)
            (λ b. self.old.handle.held ≡ Some b.value) }
        ensures none { self.new.handle.held ≡ None }
    {
        if !self.is_taken {
            return None;
        }
        let handle = replace(&mut self.handle, TicketHandle::none());
        self.is_taken = false;
        Some(handle.into_block().into_box(alloc))
    }

    /// Puts a ticket in.
    pub fn put(&mut self, ticket: Box<Ticket>)
        requires { self.old.handle.held ≡ None }
        ensures { self.new.handle.held ≡ Some ticket.value }
    {
        let empty = replace(&mut self.handle, TicketHandle::of(Block::of(ticket)));
        self.is_taken = true;
        empty.forget();
    }
}
