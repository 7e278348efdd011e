//! What a session reads by: at a statement, and at its cursor.

ghost use Rattle.std.specs.Prelude.{◌≡◌};
ghost use Rattle.commit_status.specs.Window.{next_id};
ghost use Rattle.snapshot.specs.Snap.{empty_at};
ghost use Rattle.sessions.specs.Session.{statement_snapshot, cursor_snapshot};
ghost use Rattle.session_steps.specs.Takes.{ReadsBy};

use crate::engine::SessionEngine;
use sessions::{Session, SessionIsolation};
use snapshot::Snapshot;
use visibility::Reader;

impl SessionEngine {
    /// The session as it reads by this snapshot.
    fn reader_by<'a>(&'a self, session: &'a Session, snapshot: &'a Snapshot) -> Reader<'a>
        ensures { ReadsBy self.now session.now snapshot.now result }
    {
        Reader {
            snapshot,
            own: &session.own,
            statuses: self.heap.statuses(),
        }
    }

    /// A snapshot for one statement, put in this place. It lists nobody, at the next id, so who reads by it counts all that has
    /// committed. It takes no memory. It is not inlined, so that a session by snapshot has no work with it.
    #[inline(never)]
    fn put_snapshot<'a>(&self, place: &'a mut Option<Snapshot>) -> &'a Snapshot
        ensures { result.now ≡ empty_at (next_id self.now.heap.statuses) }
    {
        place.insert(Snapshot::empty(self.alloc, self.heap.statuses().next()))
    }

    /// The snapshot of a statement of the session: the session's own, or a new one that is put in the place.
    fn statement_snapshot<'a>(
        &self,
        session: &'a Session,
        place: &'a mut Option<Snapshot>,
    ) -> &'a Snapshot
        ensures { result.now ≡ statement_snapshot self.now.heap.statuses session.now.isolation }
    {
        match &session.isolation {
            SessionIsolation::BySnapshot(snapshot) => snapshot,
            SessionIsolation::ByStatement(_) => self.put_snapshot(place),
        }
    }

    /// The snapshot of its cursor: the one that the session keeps, or else a new one that is put in the place.
    fn cursor_snapshot<'a>(
        &self,
        session: &'a Session,
        place: &'a mut Option<Snapshot>,
    ) -> &'a Snapshot
        ensures { result.now ≡ cursor_snapshot self.now.heap.statuses session.now.isolation }
    {
        match session.isolation.lasting_snapshot() {
            Some(snapshot) => snapshot,
            None => self.put_snapshot(place),
        }
    }

    /// The session as a statement of it reads; the place is for a snapshot of the statement's own. By this alone each of its statements
    /// sees what it sees.
    pub fn reader<'a>(&'a self, session: &'a Session, place: &'a mut Option<Snapshot>) -> Reader<'a>
        ensures { ReadsBy self.now session.now
            (statement_snapshot self.now.heap.statuses session.now.isolation) result }
    {
        let snapshot = self.statement_snapshot(session, place);
        self.reader_by(session, snapshot)
    }

    /// The session as its cursor reads.
    pub(crate) fn cursor_reader<'a>(
        &'a self,
        session: &'a Session,
        place: &'a mut Option<Snapshot>,
    ) -> Reader<'a>
        ensures { ReadsBy self.now session.now
            (cursor_snapshot self.now.heap.statuses session.now.isolation) result }
    {
        let snapshot = self.cursor_snapshot(session, place);
        self.reader_by(session, snapshot)
    }
}
