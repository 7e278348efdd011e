//! A session opens a cursor, asks it for rows, and closes it.

ghost use Rattle.std.specs.Prelude.{◌≡◌, ◌≢◌, Some, None, IfOk, IfErr};
ghost use Rattle.calls.specs.declared.step.Step.{Step};
ghost use Rattle.session_steps.specs.State.{session_at};
ghost use Rattle.sessions.specs.Session.{keeping, IsByStatement};
ghost use Rattle.session_steps.specs.Exact.{MovesCursor, HasCursor, MustList, snapshot_of, AnswersStep};
ghost use Rattle.session_steps.specs.Replies.{reply_to};

use crate::engine::SessionEngine;
use crate::outcome::Ack;
use calls::Refusal;
use heap_write::IndexRange;
use sessions::{Session, SessionIsolation};
use snapshot::Snapshot;
use table_scans::{CursorScan, KeyRange, Scan, start_of};

impl SessionEngine {
    /// Puts another cursor, or none, in the place of that of an open session, which goes on to keep what it keeps.
    pub(crate) fn move_cursor(&mut self, s: u8, cursor: Option<CursorScan>)
        requires { session_at self.old s ≢ None }
        ensures { MovesCursor self.old self.new s cursor }
    {
        self.sessions.open_mut(s).cursor = cursor;
    }

    /// Gives an open session this cursor, or none. By statement it keeps this snapshot from now on, or none.
    fn put_cursor(&mut self, s: u8, cursor: Option<CursorScan>, kept: Option<Snapshot>)
        requires { session_at self.old s ≢ None }
        ensures { HasCursor self.old self.new s cursor kept }
    {
        let session = self.sessions.open_mut(s);
        session.isolation.keep(kept);
        session.cursor = cursor;
    }

    /// The snapshot that a session keeps for a cursor which is opened now: by statement that of this moment; by snapshot none beside
    /// its own. Refusals: NoMemory, which comes only by statement, where the snapshot lists more than 8 ids.
    fn snapshot_to_keep(&self, session: &Session) -> Result<Option<Snapshot>, Refusal>
        ensures kept { IfOk result (λ kept. keeping kept session.now.isolation
            ≡ keeping (Some (snapshot_of self.now)) session.now.isolation) }
        ensures refused { IfErr result (λ refusal. (refusal ≡ Refusal.NoMemory)
            × IsByStatement session.now.isolation × MustList self.now) }
    {
        match &session.isolation {
            SessionIsolation::BySnapshot(_) => Ok(None),
            SessionIsolation::ByStatement(_) => match self.snapshot() {
                Ok(snapshot) => Ok(Some(snapshot)),
                Err(_) => Err(Refusal::NoMemory),
            },
        }
    }

    /// Opens a cursor over the rows that the session reads whose value in the index lies within two bounds, both included.
    /// Refusals in order: NoSuchSession, NotOpen, Failed, CursorOpen, NoSuchIndex, IndexTooNew, BadBounds; and NoMemory, which comes
    /// only by statement, where the snapshot that is kept lists more than 8 ids.
    pub(crate) fn open_index(
        &mut self,
        s: u8,
        index: u8,
        low: i128,
        high: i128,
    ) -> Result<Ack, Refusal>
        ensures { AnswersStep self.old (Step.OpenIndex s index low high)
            (reply_to result) self.new }
    {
        let session = self.free(s)?;
        match self.index(index) {
            Some(_) => {}
            None => return Err(Refusal::NoSuchIndex),
        }
        if session.is_too_new(index) {
            return Err(Refusal::IndexTooNew);
        }
        if low > high {
            return Err(Refusal::BadBounds);
        }
        let kept = self.snapshot_to_keep(session)?;
        let span = IndexRange {
            index,
            low,
            high,
            last: None,
        };
        self.put_cursor(s, Some(CursorScan::Rows(Scan::Index(span))), kept);
        Ok(Ack::Done)
    }

    /// Opens a cursor over all rows that the session reads. Refusals in order: NoSuchSession, NotOpen, Failed, CursorOpen; and
    /// NoMemory, which comes only by statement, where the snapshot that is kept lists more than 8 ids.
    pub(crate) fn open_heap(&mut self, s: u8) -> Result<Ack, Refusal>
        ensures { AnswersStep self.old (Step.OpenHeap s) (reply_to result) self.new }
    {
        let session = self.free(s)?;
        let kept = self.snapshot_to_keep(session)?;
        self.put_cursor(s, Some(CursorScan::Rows(Scan::Heap(start_of(0)))), kept);
        Ok(Ack::Done)
    }

    /// Opens a cursor over the keys, from one to another, of the rows that the session reads. Refusals in order: NoSuchSession, NotOpen,
    /// Failed, CursorOpen, BadBounds; and NoMemory, which comes only by statement, where the snapshot that is kept lists more than 8 ids.
    pub(crate) fn open_keys(&mut self, s: u8, low: i128, high: i128) -> Result<Ack, Refusal>
        ensures { AnswersStep self.old (Step.OpenKeys s low high) (reply_to result) self.new }
    {
        let session = self.free(s)?;
        if low > high {
            return Err(Refusal::BadBounds);
        }
        let kept = self.snapshot_to_keep(session)?;
        let range = KeyRange::new(low, high);
        self.put_cursor(s, Some(CursorScan::Keys(range)), kept);
        Ok(Ack::Done)
    }

    /// Closes the session's cursor; by statement no snapshot is kept any more. Refusals in order: NoSuchSession, NotOpen, Failed,
    /// NoCursor. It takes no memory.
    pub(crate) fn close_cursor(&mut self, s: u8) -> Result<Ack, Refusal>
        ensures { AnswersStep self.old (Step.Close s) (reply_to result) self.new }
    {
        self.with_cursor(s)?;
        self.put_cursor(s, None, None);
        Ok(Ack::Done)
    }
}
