//! Tickets: pages whose rows are read later.

ghost use Rattle.std.specs.Prelude.{◌≡◌, ◌≢◌, ◌<◌, ◌≤◌, [], IfOk, OnErr, length, vec_len, vec_capacity};
ghost use Rattle.std.specs.Arc.{arc_value};
ghost use Rattle.table_scans.specs.Tickets.{rows_at, ticket_rows, HasRows};
ghost use Rattle.table_scans.specs.Seen.{AreSeenOn, SeesSome};

use crate::seeing::{SlotNumbers, seen_slots};
use page_slots::Page;
use std::alloc::{AllocError, Global};
use std::marker::Model;
use std::sync::Arc;
use tuple_header::Row;
use visibility::Reader;

/// A page as it was at one moment, and which of its versions one session saw then.
#[derive(Drop)]
pub struct Ticket {
    alloc: Global,
    page: Arc<Box<Page>>,
    seen: SlotNumbers,
}

impl Model for Ticket {
    ghost use Rattle.table_scans.specs.Tickets.{TicketView, HasRows};

    ghost Value = { TicketView };

    ghost view = { λ t. record { page = t.page.value.value; seen = t.seen.items } };

    ghost invariant = { λ t. HasRows t.page.value.value.slots t.seen.items };
}

impl Ticket {
    /// The page with what the reader sees of it. It takes no memory.
    pub fn of(alloc: Global, page: Arc<Box<Page>>, reader: &Reader<'_>) -> Ticket
        ensures page { result.page ≡ (arc_value page).value }
        ensures rows { AreSeenOn (arc_value page).value reader.now (ticket_rows result) }
    {
        let seen = seen_slots(&page, reader);
        Ticket { alloc, page, seen }
    }
}

/// Copies of the rows in these slots, in a list with room for them.
fn copy_rows(page: &Page, numbers: &[u16], room: &mut Vec<Row>)
    requires empty { room.old.items ≡ [] }
    requires fits { length numbers.now ≤ vec_capacity room.old }
    ensures { room.new.items ≡ rows_at page.now.slots numbers.now }
{
    for number in numbers {
        if let Some(row) = page.row(*number) {
            room.push_reserved(row.copy());
        }
    }
}

/// Copies of the rows in these slots. Memory is refused only where there is one.
fn rows_in(alloc: Global, page: &Page, numbers: &[u16]) -> Result<Vec<Row>, AllocError>
    requires there { HasRows page.now.slots numbers.now }
    ensures rows { IfOk result (λ rows. rows.items ≡ rows_at page.now.slots numbers.now) }
    ensures refused { OnErr result (0 < length (rows_at page.now.slots numbers.now)) }
{
    let mut rows = Vec::with_capacity(alloc, numbers.len())?;
    copy_rows(page, numbers, &mut rows);
    Ok(rows)
}

/// The rows of the page that the session saw when it took the ticket, in the order of their slots. Memory is refused only where there is
/// a row. (What a ticket holds is private to it.)
pub fn resolve(ticket: &Ticket) -> Result<Vec<Row>, AllocError>
    ensures rows { IfOk result (λ rows. rows.items ≡ ticket_rows ticket.now) }
    ensures refused { OnErr result (ticket_rows ticket.now ≢ []) }
{
    rows_in(ticket.alloc, &ticket.page, ticket.seen.as_slice())
}

/// The rows of the page that the reader sees, in the order of their slots. Memory is refused only where there is one.
pub fn read_rows(alloc: Global, page: &Page, reader: &Reader<'_>) -> Result<Vec<Row>, AllocError>
    ensures rows { IfOk result (λ rows. AreSeenOn page.now reader.now rows.items) }
    ensures refused { OnErr result (SeesSome page.now reader.now) }
{
    let seen = seen_slots(page, reader);
    rows_in(alloc, page, seen.as_slice())
}
