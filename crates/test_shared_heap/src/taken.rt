//! A page that two sessions take, and whose row is read after it was updated and the page pruned.

use crate::rows::{SETTINGS, insert, update};
use session_core::{Refusal, RunFault, Step};
use shared_heap::Shared;
use std::alloc::Global;
use std::sync::Wait;
use table_scans::{Ticket, resolve};

/// The value of the row of a ticket, if it has one row.
fn value_of(ticket: &Ticket) -> Option<i64> {
    let rows = resolve(ticket).ok()?;
    if rows.len() == 1 {
        Some(rows[0].cols[0])
    } else {
        None
    }
}

/// The row of key 1 is updated, also once both sessions have taken its page and ended. The values that their tickets have.
fn values_by_tickets<R: Wait>(
    rt: &R,
    alloc: Global,
    shared: &Shared,
) -> Option<(Option<i64>, Option<i64>)> {
    insert(rt, alloc, shared, 5);
    shared.call(rt, Step::Begin(1));
    shared.call(rt, Step::BeginReadCommitted(2));
    update(rt, alloc, shared, 6);
    let by_snapshot = shared.take_page(rt, 1, 0).ok()?;
    let by_statement = shared.take_page(rt, 2, 0).ok()?;
    shared.call(rt, Step::Abort(1));
    shared.call(rt, Step::Abort(2));
    update(rt, alloc, shared, 7);
    shared.call(rt, Step::Prune(0));
    Some((value_of(&by_snapshot), value_of(&by_statement)))
}

/// Why a session may not take the first page.
fn refusal_of<R: Wait>(rt: &R, shared: &Shared, session: u8) -> Option<Refusal> {
    shared.take_page(rt, session, 0).err()
}

// By its snapshot session 1 sees no update, by statement session 2 sees that before it took the page.
#[test]
fn tickets_give_the_rows_of_their_moment(rt: HostRuntime) -> Result<(), RunFault> {
    let alloc = rt.alloc();
    let shared = Shared::new(alloc, SETTINGS)?;
    assert_eq!(rt;
        values_by_tickets(&rt, alloc, &shared),
        Some((Some(5), Some(6)))
    );
    assert_eq!(rt; refusal_of(&rt, &shared, 1), Some(Refusal::NotOpen));
    Ok(())
}
