//! What the tests share: settings, rows, how they are written, and when two replies are the same.

use session_core::{Reply, Row, RowIn, Settings, Step};
use shared_heap::Shared;
use std::alloc::Global;
use std::sync::Wait;

pub(crate) const SETTINGS: Settings = Settings {
    max_pages: 16,
    stop_age: 1000,
    freeze_min_age: 0,
    first_xid: 3,
    dead_limit: 64,
    indexed: [false; 4],
};

/// A row without a body.
pub(crate) fn row(alloc: Global, key: u64, value: i64) -> RowIn {
    RowIn {
        key,
        cols: [value, 0, 0, 0],
        body: Vec::new(alloc),
    }
}

/// Session 0 inserts key 1 in a transaction of its own.
pub(crate) fn insert<R: Wait>(rt: &R, alloc: Global, shared: &Shared, value: i64) {
    shared.call(rt, Step::Begin(0));
    shared.call(rt, Step::Insert(0, row(alloc, 1, value)));
    shared.call(rt, Step::Commit(0));
}

/// Session 0 updates key 1 in a transaction of its own.
pub(crate) fn update<R: Wait>(rt: &R, alloc: Global, shared: &Shared, value: i64) {
    shared.call(rt, Step::Begin(0));
    shared.call(rt, Step::Update(0, row(alloc, 1, value)));
    shared.call(rt, Step::Commit(0));
}

/// Whether the same rows stand in both lists, in one order.
fn are_same_rows(rows: &[Row], others: &[Row]) -> bool {
    if rows.len() != others.len() {
        return false;
    }
    for (row, other) in rows.iter().zip(others.iter()) {
        if row != other {
            return false;
        }
    }
    true
}

/// Whether both are the same row, or none.
fn are_same_found(found: &Option<Row>, other: &Option<Row>) -> bool {
    match (found, other) {
        (Some(row), Some(other)) => row == other,
        (None, None) => true,
        _ => false,
    }
}

/// Whether two replies are the same: none of them is a vacuum's.
pub(crate) fn are_same(reply: &Reply, other: &Reply) -> bool {
    match (reply, other) {
        (Reply::Found(found), Reply::Found(other)) => are_same_found(found, other),
        (Reply::Rows(rows), Reply::Rows(others)) => {
            are_same_rows(rows.as_slice(), others.as_slice())
        }
        (Reply::Keys(keys), Reply::Keys(others)) => keys.as_slice() == others.as_slice(),
        (Reply::Refused(refusal), Reply::Refused(other)) => *refusal == *other,
        (Reply::Done, Reply::Done) => true,
        (Reply::End, Reply::End) => true,
        (Reply::Committed, Reply::Committed) => true,
        (Reply::RolledBack, Reply::RolledBack) => true,
        _ => false,
    }
}
