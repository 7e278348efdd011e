//! A session asks its cursor for rows, or for keys, in a list or in places of the caller's.

ghost use Rattle.std.specs.Prelude.{◌<◌, ◌^◌, length, IfOk, OnErr};
ghost use Rattle.calls.specs.declared.step.Step.{Step};
ghost use Rattle.table_scans.specs.Takes.{MeetsSome, TakesNext};
ghost use Rattle.table_scans.specs.Puts.{PutsOfCursor};
ghost use Rattle.table_scans.specs.Keys.{MeetsSomeKey, TakesNextKeys};
ghost use Rattle.session_steps.specs.Exact.{AnswersStep};
ghost use Rattle.session_steps.specs.NextRows.{AnswersNextRows};
ghost use Rattle.session_steps.specs.Takes.{session_sight};

use crate::engine::SessionEngine;
use calls::{Refusal, Reply, Row};
use sessions::Session;
use std::alloc::AllocError;
use table_scans::{CursorScan, KeyRange, Scan, put_next, take_keys, take_next};
use tuple_header::RowPlace;

/// There are no more places than rows fit into a list. It does nothing; its contract is the fact.
fn fact_few(places: &[RowPlace])
    ensures { length places.now < 2 ^ 63 }
{
    let _count = places.len();
}

impl SessionEngine {
    /// Hands out rows of the session's cursor. Of an index they are the next `n` in its order, where 0 counts as 1, or all that are left.
    /// Of the heap they are all of the next page on which the session sees any, from where the cursor is, by their slots. A cursor over
    /// keys hands out keys, as one of the index by key hands out rows. The answer is End exactly where none is left, and leaves the
    /// cursor open. Refusals in order: NoSuchSession, NotOpen, Failed, NoCursor, and NoMemory, which comes only where there is a row or a
    /// key to hand out, and leaves the cursor where it was.
    pub(crate) fn next(&mut self, s: u8, n: u16) -> Reply
        ensures { AnswersStep self.old (Step.Next s n) result self.new }
    {
        let (session, cursor) = match self.with_cursor(s) {
            Ok(found) => found,
            Err(refusal) => return Reply::Refused(refusal),
        };
        match cursor {
            CursorScan::Rows(scan) => match self.take(session, scan, n) {
                Ok(Some((rows, after))) => {
                    self.move_cursor(s, Some(CursorScan::Rows(after)));
                    Reply::Rows(rows)
                }
                Ok(None) => Reply::End,
                Err(_) => Reply::Refused(Refusal::NoMemory),
            },
            CursorScan::Keys(range) => match self.take_keys(session, range, n) {
                Ok(Some((keys, after))) => {
                    self.move_cursor(s, Some(CursorScan::Keys(after)));
                    Reply::Keys(keys)
                }
                Ok(None) => Reply::End,
                Err(_) => Reply::Refused(Refusal::NoMemory),
            },
        }
    }

    /// Puts the answer of [`SessionEngine::next`] in the place of another reply. It is a function of its own, so that a reply by
    /// value is cleared only where one is made.
    #[inline(never)]
    pub(crate) fn next_into(&mut self, s: u8, n: u16, reply: &mut Reply)
        ensures { AnswersStep self.old (Step.Next s n) reply.new self.new }
    {
        *reply = self.next(s, n);
    }

    /// Writes the next rows of the session's cursor to the first places, and answers how many there are: none exactly where
    /// nothing is left, and the cursor stays open then. Of an index they are as many as there are places, or all that are left.
    /// Of the heap they are those of the next page on which the session sees any, from where the cursor is, up to so many. What
    /// the page has left over is handed out by the next call. Of a cursor over keys the key alone is written, and all else in its
    /// place stays. Refusals in order: NoSuchSession, NotOpen, Failed, NoCursor. It takes no memory.
    pub fn next_rows(&mut self, s: u8, places: &mut [RowPlace]) -> Result<usize, Refusal>
        requires { 0 < length places.old }
        ensures { AnswersNextRows self.old s places.old result places.new self.new }
    {
        let (session, cursor) = match self.with_cursor(s) {
            Ok(found) => found,
            Err(refusal) => return Err(refusal),
        };
        fact_few(places);
        let (count, after) = self.put(session, cursor, places);
        if count > 0 {
            self.move_cursor(s, Some(after));
        }
        Ok(count)
    }

    /// The next rows of a scan as the session's cursor sees them, and what is left of it.
    fn take(
        &self,
        session: &Session,
        scan: Scan,
        n: u16,
    ) -> Result<Option<(Vec<Row>, Scan)>, AllocError>
        ensures taken { IfOk result (TakesNext (session_sight self.now session.now) scan n) }
        ensures refused { OnErr result (MeetsSome (session_sight self.now session.now) scan) }
    {
        let mut place = None;
        let reader = self.cursor_reader(session, &mut place);
        take_next(self.alloc, &self.heap, &reader, scan, n)
    }

    /// The next keys of a range as it sees them, and what is left of it.
    fn take_keys(
        &self,
        session: &Session,
        range: KeyRange,
        n: u16,
    ) -> Result<Option<(Vec<u64>, KeyRange)>, AllocError>
        ensures taken { IfOk result (TakesNextKeys (session_sight self.now session.now) range n) }
        ensures refused { OnErr result (MeetsSomeKey (session_sight self.now session.now) range) }
    {
        let mut place = None;
        let reader = self.cursor_reader(session, &mut place);
        take_keys(self.alloc, &self.heap, &reader, range, n)
    }

    /// Writes the next rows or keys of a cursor to the first places, and answers how many there are, and what is left.
    fn put(
        &self,
        session: &Session,
        cursor: CursorScan,
        places: &mut [RowPlace],
    ) -> (usize, CursorScan)
        requires { 0 < length places.old }
        ensures { PutsOfCursor (session_sight self.now session.now) cursor places.old
            result.0 result.1 places.new }
    {
        let mut place = None;
        let reader = self.cursor_reader(session, &mut place);
        put_next(&self.heap, &reader, cursor, places)
    }
}
