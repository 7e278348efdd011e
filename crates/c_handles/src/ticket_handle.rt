//! A pointer that owns a ticket, or nothing.

ghost use Rattle.std.specs.Prelude.{◌≡◌, Option, Some, None, IsSome};
ghost use Rattle.table_scans.specs.Tickets.{TicketView};

use crate::block::Block;
use std::marker::Model;
use std::ptr::null_mut;
use table_scans::Ticket;

/// A pointer to a ticket, which C never sees, and owns. It cannot be let go: who has one ends it by `into_block` or by `forget`.
#[repr(C)]
pub struct TicketHandle {
    at: *mut u8,
    pub ghost held: { Option TicketView },
}

impl Model for TicketHandle {
    ghost use Rattle.c_handles.specs.Owned.{owned_ticket};

    ghost also_owns = { λ h. owned_ticket h.at h.held };
}

impl TicketHandle {
    /// Owns nothing.
    pub fn none() -> TicketHandle
        ensures { result.held ≡ None }
    {
        TicketHandle { at: null_mut() }
    }

    /// Owns the block.
    pub fn of(block: Block<Ticket>) -> TicketHandle
        ensures { result.held ≡ Some block.value }
    {
        let Block { at } = block;
        TicketHandle { at: at as *mut u8 }
    }

    /// Gives up the block that it owns.
    pub fn into_block(self) -> Block<Ticket>
        requires { IsSome self.held }
        ensures { self.held ≡ Some result.value }
    {
        let TicketHandle { at } = self;
        Block {
            at: at as *mut Ticket,
        }
    }

    /// Ends a handle that owns nothing.
    pub fn forget(self)
        requires { self.held ≡ None }
    {
        let TicketHandle { at: _ } = self;
    }
}
