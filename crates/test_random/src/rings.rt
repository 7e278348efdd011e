//! Who waits for whom, so that writes can be drawn that close rings.

use session_core::{Refusal, Reply, Step};

/// The key that each session wrote last, and for whom it waits. A wait that ends by a step that is no write is kept here: it may be that
/// a write is drawn in vain.
#[derive(Drop)]
pub(crate) struct Rings {
    keys: [Option<u64>; 64],
    waits: [Option<u8>; 64],
}

// The session and the key, if the step is a write.
fn write_in(step: &Step) -> Option<(u8, u64)> {
    match step {
        Step::Insert(s, row) | Step::Update(s, row) => Some((*s, row.key)),
        Step::Delete(s, key) => Some((*s, *key)),
        _ => None,
    }
}

// The session that has ended by the step, if one has.
fn end_in(step: &Step, reply: &Reply) -> Option<u8> {
    match (step, reply) {
        (Step::Commit(s) | Step::Abort(s), Reply::Committed | Reply::RolledBack) => Some(*s),
        _ => None,
    }
}

impl Rings {
    /// Nobody has written a key, and nobody waits.
    pub(crate) fn new() -> Rings {
        Rings {
            keys: [None; 64],
            waits: [None; 64],
        }
    }

    /// Follows a step that was answered so.
    pub(crate) fn follow(&mut self, step: &Step, reply: &Reply) {
        if let Some(s) = end_in(step, reply) {
            self.set_key(s, None);
            self.wake(s);
        }
        if let Some((s, key)) = write_in(step) {
            if let Reply::Done = reply {
                self.set_key(s, Some(key));
            }
            self.set_wait(s, reply);
        }
    }

    fn set_key(&mut self, s: u8, key: Option<u64>) {
        if let Some(last) = self.keys.get_mut(s as usize) {
            *last = key;
        }
    }

    // The session waits, where its write was answered so, and else does not.
    fn set_wait(&mut self, s: u8, reply: &Reply) {
        if let Some(wait) = self.waits.get_mut(s as usize) {
            *wait = match reply {
                Reply::Refused(Refusal::Busy(o)) => Some(*o),
                _ => None,
            };
        }
    }

    // Nobody waits for the session any more.
    fn wake(&mut self, s: u8) {
        for wait in self.waits.iter_mut() {
            if *wait == Some(s) {
                *wait = None;
            }
        }
    }

    fn wait_of(&self, s: u8) -> Option<u8> {
        *self.waits.get(s as usize)?
    }

    // The last of the sessions of which each waits for the next, from this one on.
    fn last_of(&self, s: u8) -> u8 {
        let mut last = s;
        for _ in 0..64u8 {
            match self.wait_of(last) {
                Some(o) => last = o,
                None => return last,
            }
        }
        last
    }

    /// The session for which this one waits in the end, and the key that this one wrote last: a write of it by the other may close a
    /// ring.
    pub(crate) fn closing_write(&self, s: u8) -> Option<(u8, u64)> {
        let key = (*self.keys.get(s as usize)?)?;
        let last = self.last_of(s);
        if last == s { None } else { Some((last, key)) }
    }
}
