//! Taking pages, whose rows are read at any time and without the table.

ghost use Rattle.std.specs.Prelude.{◌≡◌, ◌≤◌, None, length, IfOk, MatchResult};
ghost use Rattle.tuple_header.specs.Places.{places_with};
ghost use Rattle.table_scans.specs.Tickets.{ticket_rows};
ghost use Rattle.session_steps.specs.Tickets.{TakesTicket, AreViewed};
ghost use Rattle.sandpiper_c.specs.Calls.{StaysAsIs};
ghost use Rattle.sandpiper_c.specs.Tickets.{core_of, ticket_by, RefusesPage, GivesTicket, GivesTicketOf, ShowsRows, ReadsRows, ReadsTicket, ClosesTicket};

use c_handles::{CallStatus, Held, Sandpiper, SandpiperTicket};
use session_core::{Refusal, RowPlace};
use std::alloc::Global;
use table_scans::{Ticket, resolve};
use tuple_header::{Row, RowRef};

/// The page's ticket, on the heap.
fn new_ticket(
    alloc: Global,
    held: &mut Held,
    session: u8,
    page: u32,
) -> Result<Box<Ticket>, Refusal>
    ensures same { held.new ≡ held.old }
    ensures taken { MatchResult result
        (λ b. TakesTicket (core_of held.old) session page b.value)
        (RefusesPage (core_of held.old) session page) }
    ensures view { IfOk result
        (λ b. AreViewed (core_of held.old) session (ticket_rows b.value)) }
{
    match held.engine.take_page(session, page) {
        Ok(ticket) => match Box::new(alloc, ticket) {
            Ok(ticket) => Ok(ticket),
            Err(_) => Err(Refusal::NoMemory),
        },
        Err(refusal) => Err(refusal),
    }
}

/// Has C keep the page's ticket, where it has none yet.
fn held_take_page(
    alloc: Global,
    held: &mut Held,
    session: u8,
    page: u32,
    ticket: &mut SandpiperTicket,
) -> u32
    requires { ticket_by ticket.old ≡ None }
    ensures same { held.new ≡ held.old }
    ensures gives { GivesTicket held.old session page result (ticket_by ticket.new) }
{
    match new_ticket(alloc, held, session, page) {
        Ok(new) => {
            ticket.put(new);
            CallStatus::Done.number()
        }
        Err(refusal) => CallStatus::Refused(refusal).number(),
    }
}

/// Takes a page, counted from 0, as it is now, with what a statement of the session sees of it. It changes nothing in the table.
#[unsafe(no_mangle)]
pub extern "C" fn sandpiper_take_page(
    alloc: Global,
    table: &mut Sandpiper,
    session: u8,
    page: u32,
    ticket: &mut SandpiperTicket,
) -> u32
    ensures stays { StaysAsIs table.old table.new }
    ensures takes { GivesTicketOf table.old session page ticket.old result ticket.new }
{
    if ticket.is_taken {
        return CallStatus::HasTicket.number();
    }
    match table.take(alloc) {
        Some(mut held) => {
            let code = held_take_page(alloc, &mut held, session, page, ticket);
            table.put(held);
            code
        }
        None => CallStatus::NoEngine.number(),
    }
}

/// Writes the rows to the first of C's places, which are enough.
fn put_rows(rows: &[Row], places: &mut [RowPlace])
    requires { length rows.now ≤ length places.old }
    ensures { places.new ≡ places_with rows.now places.old }
{
    for number in 0..rows.len() {
        let row = &rows[number];
        RowRef::new(row.key, row.cols, row.body.as_slice()).put_into(&mut places[number]);
    }
}

/// The same, if they are enough. There are `count` rows.
fn show_rows(rows: &[Row], places: &mut [RowPlace], count: &mut usize) -> u32
    ensures { ShowsRows rows.now places.old result places.new count.new }
{
    *count = rows.len();
    if rows.is_empty() {
        return CallStatus::NoRow.number();
    }
    if places.len() < rows.len() {
        return CallStatus::NoPlace.number();
    }
    put_rows(rows, places);
    CallStatus::Rows.number()
}

/// Writes the ticket's rows, of which there are `count`, to C's places.
fn read_ticket(ticket: &Ticket, places: &mut [RowPlace], count: &mut usize) -> u32
    ensures { ReadsRows (ticket_rows ticket.now) places.old result places.new count.new }
{
    match resolve(ticket) {
        Ok(rows) => show_rows(rows.as_slice(), places, count),
        Err(_) => {
            *count = 0;
            CallStatus::Refused(Refusal::NoMemory).number()
        }
    }
}

/// Writes the rows of a ticket to the first places of C's own, where these are enough, and how many there are to `count`. It is handed no
/// table: the rows are those that the session saw when the ticket was taken.
#[unsafe(no_mangle)]
pub extern "C" fn sandpiper_ticket_rows(
    alloc: Global,
    ticket: &mut SandpiperTicket,
    rows: &mut [RowPlace],
    count: &mut usize,
) -> u32
    ensures stays { ticket_by ticket.new ≡ ticket_by ticket.old }
    ensures rows { ReadsTicket (ticket_by ticket.old) rows.old result rows.new count.new }
{
    match ticket.take(alloc) {
        Some(taken) => {
            let code = read_ticket(&taken, rows, count);
            ticket.put(taken);
            code
        }
        None => {
            *count = 0;
            CallStatus::NoTicket.number()
        }
    }
}

/// Ends the ticket, and gives its memory back.
#[unsafe(no_mangle)]
pub extern "C" fn sandpiper_close_ticket(alloc: Global, ticket: &mut SandpiperTicket) -> u32
    ensures { ClosesTicket (ticket_by ticket.old) result (ticket_by ticket.new) }
{
    match ticket.take(alloc) {
        Some(taken) => {
            drop(taken);
            CallStatus::Done.number()
        }
        None => CallStatus::NoTicket.number(),
    }
}
