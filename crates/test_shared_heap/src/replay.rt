//! One thread does the steps of a journal again.

use crate::rows::{SETTINGS, are_same};
use session_core::{Refusal, Reply, RunFault, Step, run};
use shared_heap::Book;
use std::alloc::{AllocError, Global};

/// How the entries of a journal were answered.
#[derive(Clone, Copy, Default)]
pub(crate) struct Entries {
    pub(crate) busy: usize,
    pub(crate) deadlocks: usize,
    pub(crate) others: usize,
}

impl Entries {
    fn count(&mut self, reply: &Reply) {
        let count = match reply {
            Reply::Refused(Refusal::Busy(_)) => &mut self.busy,
            Reply::Refused(Refusal::Deadlock) => &mut self.deadlocks,
            _ => &mut self.others,
        };
        *count = count.saturating_add(1);
    }
}

fn steps_of(alloc: Global, journal: &[(Step, Reply)]) -> Result<Vec<Step>, AllocError> {
    let mut steps = Vec::new(alloc);
    for (step, _) in journal {
        steps.push(step.copy(alloc)?)?;
    }
    Ok(steps)
}

/// The replies to steps. It promises nothing: what `run` does would be carried along by the proof of each test.
fn replies_to(alloc: Global, steps: &[Step]) -> Result<Vec<Reply>, RunFault> {
    run(alloc, SETTINGS, steps)
}

/// How the entries were answered, if these replies are theirs.
fn entries_if_same(journal: &[(Step, Reply)], replies: &[Reply]) -> Option<Entries> {
    if journal.len() != replies.len() {
        return None;
    }
    let mut entries = Entries::default();
    for ((_, reply), other) in journal.iter().zip(replies) {
        if !are_same(reply, other) {
            return None;
        }
        entries.count(reply);
    }
    Some(entries)
}

/// How the entries of the journal were answered, if one thread that does its steps gets the same replies.
pub(crate) fn replay(alloc: Global, book: &Book) -> Result<Option<Entries>, RunFault> {
    let Ok(steps) = steps_of(alloc, book.journal()) else {
        return Err(RunFault::NoMemory);
    };
    let replies = replies_to(alloc, steps.as_slice())?;
    Ok(entries_if_same(book.journal(), replies.as_slice()))
}
