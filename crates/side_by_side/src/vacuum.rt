//! The vacuum that runs, of which the history knows nothing.

use crate::levels::earlier;
use session_core::Mode;
use xid_circle::{Xid, precedes};

/// A vacuum that is running.
#[derive(Clone, Copy)]
pub(crate) struct RunningVacuum {
    // An aggressive one lets the ids before this one be forgotten at its end.
    cutoff: Option<Xid>,
}

// The id given so long before the next one. The numbers 0, 1 and 2 count as ids that were given, and none of them is answered.
fn id_before(next: Xid, age: u32) -> Xid {
    let id = Xid(next.0.wrapping_sub(age));
    if id.is_normal() {
        id
    } else {
        Xid::FIRST_NORMAL
    }
}

// The earlier of the horizon and of the id given so long ago, but none before the first that is remembered.
fn cutoff_of(ids: (Xid, Xid), horizon: Xid, age: u32) -> Xid {
    let (next, first) = ids;
    let cutoff = earlier(horizon, id_before(next, age));
    if cutoff.is_normal() && first.is_normal() && precedes(cutoff, first) {
        first
    } else {
        cutoff
    }
}

impl RunningVacuum {
    /// One of this mode that begins: with these ids, the next and the oldest that is remembered, at this horizon, and where ids are
    /// frozen when they are so old.
    pub(crate) fn new(mode: Mode, ids: (Xid, Xid), horizon: Xid, age: u32) -> RunningVacuum {
        RunningVacuum {
            cutoff: match mode {
                Mode::Normal => None,
                Mode::Aggressive => Some(cutoff_of(ids, horizon, age)),
            },
        }
    }

    /// The oldest id that is remembered after its end, where this one is before.
    pub(crate) fn first_after(self, first: Xid) -> Xid {
        match self.cutoff {
            Some(cutoff) => cutoff,
            None => first,
        }
    }
}
