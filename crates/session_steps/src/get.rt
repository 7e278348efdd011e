//! A session reads.

ghost use Rattle.std.specs.Prelude.{◌≡◌, IfErr, MatchResult};
ghost use Rattle.calls.specs.declared.reply.Reply.TheVariants.{Found};
ghost use Rattle.calls.specs.declared.step.Step.{Step};
ghost use Rattle.calls.specs.Bars.{BarsReady};
ghost use Rattle.session_steps.specs.State.{engine_sessions};
ghost use Rattle.session_steps.specs.Exact.{AnswersStep};
ghost use Rattle.session_steps.specs.Replies.{found_reply};
ghost use Rattle.session_steps.specs.Tickets.{SeesOnPage, RefusesRows};

use crate::engine::SessionEngine;
use calls::{Refusal, Reply, Row};
use table_scans::{no_row, read_rows};
use tuple_header::RowRef;

impl SessionEngine {
    /// Borrows the row of the key that the session reads. Refusals in order: NoSuchSession, NotOpen, Failed. It takes no memory.
    #[inline(always)]
    pub fn look_up(&self, s: u8, key: u64) -> Result<Option<RowRef<'_>>, Refusal>
        ensures answers { AnswersStep self.now (Step.Get s key) (found_reply result) self.now }
        ensures refused { IfErr result
            (λ refusal. BarsReady (engine_sessions self.now) s refusal) }
    {
        match self.ready(s) {
            Ok(session) => {
                let mut place = None;
                Ok(self.heap.find_row(key, &self.reader(session, &mut place)))
            }
            Err(refusal) => Err(refusal),
        }
    }

    /// The row of the key that the session reads. Refusals in order: NoSuchSession, NotOpen, Failed. It takes no
    /// memory.
    pub(crate) fn get(&self, s: u8, key: u64, reply: &mut Reply)
        ensures { AnswersStep self.now (Step.Get s key) reply.new self.now }
    {
        match self.look_up(s, key) {
            Ok(found) => put_found(found, reply),
            Err(refusal) => *reply = Reply::Refused(refusal),
        }
    }

    /// Forgets where keys were put, and notes it from now on, or never, as [`heap_write::HeapState::keep_places`] does. (The
    /// table is private to the crate.)
    pub fn keep_places(&mut self, are_wanted: bool)
        ensures { self.new ≡ self.old }
    {
        self.heap.keep_places(are_wanted)
    }

    /// All rows of the page that the session reads, in the order of their slots. Refusals in order: NoSuchSession, NotOpen, Failed,
    /// NoSuchPage, NoMemory.
    pub(crate) fn read_page(&self, s: u8, number: u32, reply: &mut Reply)
        ensures { AnswersStep self.now (Step.TakePage s number) reply.new self.now }
    {
        match self.page_rows(s, number) {
            Ok(rows) => *reply = Reply::Rows(rows),
            Err(refusal) => *reply = Reply::Refused(refusal),
        }
    }

    /// The rows that a statement of the session sees on the page.
    fn page_rows(&self, s: u8, number: u32) -> Result<Vec<Row>, Refusal>
        ensures { MatchResult result (λ rows. SeesOnPage self.now s number rows.items)
            (RefusesRows self.now s number) }
    {
        // so that it is known that there are 64 places for sessions
        let _ = &self.sessions;
        let session = self.ready(s)?;
        let Some(page) = self.heap.page(number) else {
            return Err(Refusal::NoSuchPage);
        };
        let mut place = None;
        let reader = self.reader(session, &mut place);
        match read_rows(self.alloc, page, &reader) {
            Ok(rows) => Ok(rows),
            Err(_) => Err(Refusal::NoMemory),
        }
    }
}

/// Puts what was found in the place of another reply. It takes no memory.
fn put_found(found: Option<RowRef<'_>>, reply: &mut Reply)
    ensures { reply.new ≡ Found found.entry }
{
    let Some(row) = found else {
        *reply = Reply::Found(None);
        return;
    };
    // where there is a row already, it is written over, and no other is made
    if !matches!(reply, Reply::Found(Some(_))) {
        *reply = Reply::Found(Some(no_row()));
    }
    if let Reply::Found(Some(place)) = reply {
        row.copy_to(place);
    }
}

/// A row that was found, by value. It takes no memory.
pub(crate) fn copy_of(found: Option<RowRef<'_>>) -> Option<Row>
    ensures { result ≡ found.entry }
{
    match found {
        Some(row) => Some(row.copy()),
        None => None,
    }
}
