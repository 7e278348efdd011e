//! Whether the ids of an engine go past the turn.

use session_core::{Refusal, Reply};
use xid_circle::Xid;

/// The first id of the circle's second half. Over the half of the circle the order of ids turns round.
pub(crate) const HALF: u32 = 2_147_483_648;

/// What was seen of an engine's ids so far.
#[derive(Drop)]
pub(crate) struct Passage {
    next: Xid,
    passed: bool,
    met: bool,
    lifted: bool,
    stopped: bool,
}

impl Passage {
    /// Of a new engine whose next id this is.
    pub(crate) fn new(next: Xid) -> Passage {
        Passage {
            next,
            passed: false,
            met: false,
            lifted: false,
            stopped: false,
        }
    }

    /// Follows a reply after which this is the next id.
    pub(crate) fn follow(&mut self, reply: &Reply, next: Xid) {
        if let Reply::Refused(Refusal::NeedsFreeze) = reply {
            self.met = true;
            self.stopped = true;
        }
        if next != self.next {
            let over_the_end = next.0 < self.next.0;
            let over_the_half = self.next.0 < HALF && HALF <= next.0;
            self.passed = self.passed || over_the_end || over_the_half;
            self.lifted = self.lifted || self.met;
            self.stopped = false;
            self.next = next;
        } else if let Reply::Ended(_) = reply {
            self.stopped = false;
        }
    }

    /// Whether NeedsFreeze came, and neither was an id given nor has a vacuum ended since.
    pub(crate) fn is_stopped(&self) -> bool {
        self.stopped
    }

    /// Whether the ids passed the end or the half of the circle, and an id was given after NeedsFreeze had come.
    pub(crate) fn is_whole(&self) -> bool {
        self.passed && self.lifted
    }
}
