//! Tables of ids, for who reads or prunes by them.

use commit_status::{Status, StatusTable};
use std::alloc::Global;
use xid_circle::Xid;

/// An id in progress becomes this.
fn finish(statuses: &mut StatusTable, x: Xid, status: Status) {
    if statuses.remembers(x) && matches!(statuses.status(x), Status::InProgress) {
        statuses.finish(&[x], status);
    }
}

/// A table in which so many ids from 3 on are given, of which the last is in progress and all others are committed.
pub fn table_with(alloc: Global, count: u32) -> StatusTable {
    let mut statuses = StatusTable::new(alloc, Xid(3), 2000);
    for turn in 0..count {
        let _ = statuses.give(None);
        finish(
            &mut statuses,
            Xid(turn.saturating_add(2)),
            Status::Committed,
        );
    }
    statuses
}
