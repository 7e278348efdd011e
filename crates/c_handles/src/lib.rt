//! What C keeps, and the numbers of what it is told.
//!
//! C keeps a [`Sandpiper`], whose pointer owns an engine that C never sees, or a [`SandpiperTicket`], whose pointer owns a ticket. All
//! zeros is none. What a call answers is a [`CallStatus`], of which C has the number.
//!
//! Why it is built so: docs/DECISIONS.md, under its name.
#![tactic(auto)]

mod block;
mod database;
mod handle;
mod held;
mod status;
mod ticket;
mod ticket_handle;

pub use block::Block;
pub use database::Sandpiper;
pub use handle::Handle;
pub use held::Held;
pub use status::{CallStatus, numbers_differ, refusals_are_high};
pub use ticket::SandpiperTicket;
pub use ticket_handle::TicketHandle;
