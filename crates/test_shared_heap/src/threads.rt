//! Calls by threads of their own.

use crate::rows::{SETTINGS, insert, row};
use session_core::{Refusal, Reply, RunFault, Step};
use shared_heap::Shared;
use std::alloc::Global;
use std::sync::Wait;
use std::thread;
use std::thread::Threads;

/// Key 1 is committed; then sessions 0 and 1 begin, and the first updates it.
fn hold_key<R: Wait>(rt: &R, alloc: Global, shared: &Shared) -> bool {
    insert(rt, alloc, shared, 5);
    shared.call(rt, Step::Begin(0));
    shared.call(rt, Step::Begin(1));
    matches!(
        shared.call(rt, Step::Update(0, row(alloc, 1, 6))),
        Reply::Done
    )
}

/// The first column of the row that was found.
fn first_column(reply: &Reply) -> Option<i64> {
    match reply {
        Reply::Found(Some(row)) => Some(row.cols[0]),
        _ => None,
    }
}

/// Session 1 updates key 1, waiting, while session 0 aborts. Whether the one was answered Done, and the other RolledBack.
fn call_both<'x, R: Threads + Wait + Sync>(
    rt: &'x R,
    alloc: Global,
    shared: &'x Shared,
) -> (bool, bool) {
    thread::join(
        rt,
        move || {
            let reply = shared.call_waiting(rt, Step::Update(1, row(alloc, 1, 7)));
            matches!(reply, Reply::Done)
        },
        move || matches!(shared.call(rt, Step::Abort(0)), Reply::RolledBack),
    )
}

/// How many calls the journal has of a table that no thread shares any more.
fn calls_in(shared: Shared) -> usize {
    let book = shared.into_book();
    book.journal().len()
}

// Whichever of the two threads calls first: session 1's update is done once session 0 has aborted.
#[test]
fn waiting_call_ends(rt: HostRuntime) -> Result<(), RunFault> {
    let alloc = rt.alloc();
    let shared = Shared::new(alloc, SETTINGS)?;
    assert!(rt; hold_key(&rt, alloc, &shared));
    assert_eq!(rt; call_both(&rt, alloc, &shared), (true, true));
    let found = shared.call(&rt, Step::Get(1, 1));
    assert_eq!(rt; first_column(&found), Some(7));
    // one journal has all calls: six, the abort, the get, and the update with what it was answered before
    assert!(rt; calls_in(shared) >= 9);
    Ok(())
}

/// Sessions 0 and 1 begin, and each inserts the key of its number.
fn hold_a_key_each<R: Wait>(rt: &R, alloc: Global, shared: &Shared) -> bool {
    for s in 0..2u8 {
        let begun = shared.call(rt, Step::Begin(s));
        let inserted = shared.call(rt, Step::Insert(s, row(alloc, u64::from(s), 1)));
        if !matches!(begun, Reply::Done) || !matches!(inserted, Reply::Done) {
            return false;
        }
    }
    true
}

/// The session inserts the key, waiting. Whether that is a deadlock: then it is aborted.
fn is_deadlock<R: Wait>(rt: &R, alloc: Global, shared: &Shared, s: u8, key: u64) -> Option<bool> {
    match shared.call_waiting(rt, Step::Insert(s, row(alloc, key, 2))) {
        Reply::Refused(Refusal::Deadlock) => {
            shared.call(rt, Step::Abort(s));
            Some(true)
        }
        Reply::Done => Some(false),
        _ => None,
    }
}

/// Each session inserts the other's key, waiting, in a thread of its own.
fn cross<'x, R: Threads + Wait + Sync>(
    rt: &'x R,
    alloc: Global,
    shared: &'x Shared,
) -> (Option<bool>, Option<bool>) {
    thread::join(
        rt,
        move || is_deadlock(rt, alloc, shared, 0, 1),
        move || is_deadlock(rt, alloc, shared, 1, 0),
    )
}

// Two threads that would wait for each other: the one that comes second is told so, and the other has its way.
#[test]
fn ring_of_threads_ends(rt: HostRuntime) -> Result<(), RunFault> {
    let alloc = rt.alloc();
    let shared = Shared::new(alloc, SETTINGS)?;
    assert!(rt; hold_a_key_each(&rt, alloc, &shared));
    let (first, second) = cross(&rt, alloc, &shared);
    assert!(rt; first.is_some() && second.is_some());
    assert!(rt; first != second);
    Ok(())
}
