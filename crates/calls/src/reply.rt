//! The replies to steps.

use crate::vacuum::Piece;
use tuple_header::Row;

/// Why a step was not done. After each, the history and every session's rows are as they were; `Conflict` and `Deadlock` make the
/// transaction fail.
#[derive(Clone, Copy, Debug, PartialEq, Eq)]
pub enum Refusal {
    /// The session is not open.
    NotOpen,
    /// The session is open already.
    AlreadyOpen,
    /// The transaction has failed: it can only return to a savepoint, which makes it usable again, be aborted, or be
    /// committed, which rolls it back.
    Failed,
    /// The session reads a row of the key.
    AlreadyThere,
    /// The session reads no row of the key.
    NotThere,
    /// A transaction that committed since the session's snapshot was taken wrote the key.
    Conflict,
    /// This other open session has written the key.
    Busy(u8),
    /// Were the session to wait for the other that has written the key, the waits would close a ring.
    Deadlock,
    /// The session has a cursor open.
    CursorOpen,
    /// The session has no cursor open.
    NoCursor,
    /// The session has 32 savepoints, which is as many as it may have.
    TooDeep,
    /// The session has no savepoint.
    NoSavepoint,
    /// The body has more than 1024 bytes.
    TooLarge,
    /// No page has room for the row, and there may be no further page.
    NoRoom,
    /// No id can be given before old ids are frozen.
    NeedsFreeze,
    /// Memory was refused.
    NoMemory,
    /// A vacuum is running.
    VacuumRunning,
    /// No vacuum is running.
    NoVacuum,
    /// There are no more pages in use than the number that was named.
    NoSuchPage,
    /// There is no index of that number.
    NoSuchIndex,
    /// The plan does not check: the page was changed since, or somebody may see what would go.
    Stale,
    /// The session's number is over 63.
    NoSuchSession,
    /// The lower bound is over the upper.
    BadBounds,
    /// The index was made while the session was open by snapshot.
    IndexTooNew,
    /// An open session has an id.
    IndexBusy,
}

/// The reply to a step.
#[derive(Debug, Drop)]
pub enum Reply {
    /// The step was done, and there is nothing else to say.
    Done,
    /// The row that was asked for, if there is one.
    Found(Option<Row>),
    /// What the session wrote is part of the history.
    Committed,
    /// The transaction was rolled back: by `Abort`, or by `Commit` of one that had failed.
    RolledBack,
    /// The rows that the cursor hands out: one at least.
    Rows(Vec<Row>),
    /// The keys that a cursor over keys alone hands out: one at least.
    Keys(Vec<u64>),
    /// The cursor has handed out all its rows, or keys. It stays open.
    End,
    /// The vacuum did this, and goes on.
    Worked(Piece),
    /// The vacuum has ended. The oldest id that is remembered now.
    Ended(u32),
    /// The step was not done.
    Refused(Refusal),
}
