//! An open session, and how it reads.

ghost use Rattle.std.specs.Prelude.{◌≡◌, ◌<◌, suc, option_copied};
ghost use Rattle.snapshot.specs.Snap.{earliest};
ghost use Rattle.sessions.specs.Session.{kept_by, kept_xmin, keeping, reads_by_snapshot, is_too_new};
ghost use Rattle.sessions.specs.Marks.{MarksSession};
ghost use Rattle.tuple_header.specs.declared.version.TheConstants.{COLUMNS};

use snapshot::{OwnIds, Snapshot, earlier};
use table_scans::CursorScan;
use tuple_header::COLUMNS;
use xid_circle::Xid;

/// By which snapshot a session reads.
#[derive(Drop)]
pub enum SessionIsolation {
    /// By that of its beginning.
    BySnapshot(Snapshot),
    /// Each of its statements by one of its own, which lists nobody and is not kept. The session keeps its cursor's snapshot, from
    /// the opening of the cursor to its closing.
    ByStatement(Option<Snapshot>),
}

impl SessionIsolation {
    /// The snapshot that the session keeps from step to step, if it keeps one.
    pub fn lasting_snapshot(&self) -> Option<&Snapshot>
        ensures { option_copied result ≡ kept_by self.now }
    {
        match self {
            SessionIsolation::BySnapshot(snapshot) => Some(snapshot),
            SessionIsolation::ByStatement(kept) => kept.as_ref(),
        }
    }

    /// The earlier of an id and the xmin of that snapshot, if there is one.
    pub fn earlier_xmin(&self, x: Xid) -> Xid
        ensures { result.0 ≡ earliest x.0 (kept_xmin (kept_by self.now)) }
    {
        match self.lasting_snapshot() {
            Some(snapshot) => earlier(x, snapshot.xmin()),
            None => x,
        }
    }

    /// By statement the session keeps this snapshot from now on, or none. By snapshot it goes on to keep its own.
    pub fn keep(&mut self, kept: Option<Snapshot>)
        ensures { self.new ≡ keeping kept self.old }
    {
        match self {
            SessionIsolation::BySnapshot(_) => {}
            SessionIsolation::ByStatement(place) => *place = kept,
        }
    }

    /// True where a session reads by the snapshot of its beginning.
    fn reads_by_snapshot(&self) -> bool
        ensures { result ≡ reads_by_snapshot self.now }
    {
        match self {
            SessionIsolation::BySnapshot(_) => true,
            SessionIsolation::ByStatement(_) => false,
        }
    }
}

/// An open session: what it sees of others, its own ids, and whether it can only be rolled back. Then its cursor if it has one,
/// and which indexes are too new for it.
#[derive(Drop)]
pub struct Session {
    /// The snapshot by which it reads.
    pub isolation: SessionIsolation,
    /// Its own ids and its savepoints.
    pub own: OwnIds,
    /// True where it can only be rolled back.
    pub failed: bool,
    /// Its cursor, if it has one.
    pub cursor: Option<CursorScan>,
    /// For each column, true where its index was made while the session was open by snapshot: it may lack rows that the session reads.
    pub too_new: [bool; COLUMNS],
}

impl Session {
    /// True where the index of this number was made while the session was open by snapshot.
    pub fn is_too_new(&self, index: u8) -> bool
        ensures { result ≡ is_too_new self.now index }
    {
        if index == 0 || index > 4 {
            return false;
        }
        self.too_new[index as usize - 1]
    }

    /// Notes that the index by the column is made now: by snapshot the session may not scan it.
    pub(crate) fn mark(&mut self, column: u8)
        requires { column < COLUMNS }
        ensures { MarksSession (suc column) self.old self.new }
    {
        self.too_new[column as usize] = self.isolation.reads_by_snapshot();
    }
}
