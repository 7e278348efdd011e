//! Which levels of a session have ids of their own, and which ids hold the horizon back.

use crate::written::writer_of;
use arrayvec::ArrayVec;
use session_core::Step;
use xid_circle::{Xid, precedes};

// How a session reads, once it is open.
#[derive(Clone, Copy, PartialEq, Eq)]
enum Opened {
    Not,
    BySnapshot,
    ByStatement,
}

/// The levels of an open session: it has one, and one more for each savepoint.
#[derive(Drop)]
pub(crate) struct Levels {
    // How many ids each level has, the lowest level first.
    ids: ArrayVec<u32, 33>,
    // The session's first id, once it has one.
    first: Option<Xid>,
    opened: Opened,
    // The xmin of the snapshot that it keeps, while it keeps one.
    xmin: Option<Xid>,
}

/// The earlier of two ids.
pub(crate) fn earlier(a: Xid, b: Xid) -> Xid {
    if a.is_normal() && b.is_normal() && precedes(b, a) {
        b
    } else {
        a
    }
}

/// The xmin of a snapshot that is taken now: the earliest first id of an open session, or else the next id.
pub(crate) fn xmin_of(sessions: &[Levels], next: Xid) -> Xid {
    let mut xmin = next;
    for levels in sessions {
        if let Some(first) = levels.first {
            xmin = earlier(xmin, first);
        }
    }
    xmin
}

/// The horizon: the earliest of the next id, the xmin of each snapshot that is kept, and each open session's first id.
pub(crate) fn horizon_of(sessions: &[Levels], next: Xid) -> Xid {
    let mut horizon = next;
    for levels in sessions {
        if let Some(xmin) = levels.xmin {
            horizon = earlier(horizon, xmin);
        }
        if let Some(first) = levels.first {
            horizon = earlier(horizon, first);
        }
    }
    horizon
}

/// The session whose levels the step may change, if it may change any.
pub(crate) fn session_of_levels(step: &Step) -> Option<u8> {
    match step {
        Step::Begin(s) | Step::BeginReadCommitted(s) => Some(*s),
        Step::Commit(s) | Step::Abort(s) => Some(*s),
        Step::Savepoint(s) | Step::RollbackTo(s) | Step::Release(s) => Some(*s),
        _ => writer_of(step),
    }
}

impl Levels {
    /// One level, which has no id.
    pub(crate) fn new() -> Levels {
        let mut ids = ArrayVec::new();
        let _ = ids.try_push(0);
        Levels {
            ids,
            first: None,
            opened: Opened::Not,
            xmin: None,
        }
    }

    /// How many levels have no id.
    pub(crate) fn lacking(&self) -> usize {
        self.ids
            .as_slice()
            .iter()
            .filter(|count| **count == 0)
            .count()
    }

    /// How many ids the session has below its first.
    pub(crate) fn children(&self) -> u32 {
        let mut all: u32 = 0;
        for count in self.ids.as_slice() {
            all = all.saturating_add(*count);
        }
        all.saturating_sub(1)
    }

    /// The session begins, with a snapshot of this xmin.
    pub(crate) fn begin(&mut self, xmin: Xid) {
        self.opened = Opened::BySnapshot;
        self.xmin = Some(xmin);
    }

    /// The session begins, and each of its statements reads by a snapshot of its own.
    pub(crate) fn begin_by_statement(&mut self) {
        self.opened = Opened::ByStatement;
    }

    /// The session has a cursor, or none any more. By statement it keeps the cursor's snapshot, of this xmin, and else none.
    pub(crate) fn note_cursor(&mut self, xmin: Option<Xid>) {
        if self.opened == Opened::ByStatement {
            self.xmin = xmin;
        }
    }

    /// Whether the session is open.
    pub(crate) fn is_open(&self) -> bool {
        self.opened != Opened::Not
    }

    // A write gives an id to each level that has none, the lowest first: the first id of a session is that of its lowest level.
    fn fill(&mut self, next: Xid) {
        if self.first.is_none() {
            self.first = Some(next);
        }
        for count in self.ids.as_mut_slice().iter_mut() {
            if *count == 0 {
                *count = 1;
            }
        }
    }

    fn push(&mut self, ids: u32) {
        let _ = self.ids.try_push(ids);
    }

    fn pop(&mut self) -> u32 {
        self.ids.pop().unwrap_or(0)
    }

    /// Follows a step of the session that was done, where this was the next id, and says how many ids it gives.
    pub(crate) fn follow(&mut self, step: &Step, next: Xid) -> usize {
        match step {
            Step::Begin(_) | Step::BeginReadCommitted(_) => *self = Levels::new(),
            Step::Commit(_) | Step::Abort(_) => *self = Levels::new(),
            Step::Savepoint(_) => self.push(0),
            Step::RollbackTo(_) => {
                self.pop();
                self.push(0);
            }
            Step::Release(_) => {
                let released = self.pop();
                let below = self.pop();
                self.push(below.saturating_add(released));
            }
            Step::Insert(_, _) | Step::Update(_, _) | Step::Delete(_, _) => {
                let lacking = self.lacking();
                self.fill(next);
                return lacking;
            }
            _ => {}
        }
        0
    }
}
