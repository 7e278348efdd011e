//! A session, as it is.

ghost use Rattle.std.specs.Prelude.{◌≡◌, MatchResult};
ghost use Rattle.calls.specs.Bars.{BarsOpen};
ghost use Rattle.session_steps.specs.State.{engine_sessions};
ghost use Rattle.sessions.specs.Session.{kept_by};
ghost use Rattle.c_views.specs.Sessions.{reads_by_statement, number_of_cursor, shown_snapshot, shown_session, listed_in, IsSessionShown, IsOwnId, AreIdsAt, IsListedId};

use session_core::{Engine, Refusal, Session, SessionIsolation};
use table_scans::{CursorScan, Scan};

/// The snapshot that a session keeps: that of its beginning, or that of its open cursor. Without one all is 0.
#[repr(C)]
#[derive(Clone, Copy)]
pub struct SandpiperSnapshot {
    /// Whether it keeps one.
    pub is_kept: bool,
    /// Whether the children of some transaction are not listed.
    pub is_overflowed: bool,
    /// An id before this one is seen.
    pub xmin: u32,
    /// This id is not seen, nor one after it.
    pub xmax: u32,
    /// How many ids between them are listed, and so not seen.
    pub listed: usize,
}

/// An open session.
#[repr(C)]
#[derive(Clone, Copy)]
pub struct SandpiperSession {
    /// Whether it reads by statement.
    pub is_by_statement: bool,
    /// Whether it can only be rolled back.
    pub has_failed: bool,
    /// Whether it waits for another.
    pub is_waiting: bool,
    /// For which, else 0.
    pub waits_for: u8,
    /// 0 if it has no cursor, 1 if it has one of an index, 2 one of the heap, 3 one over keys.
    pub cursor: u32,
    /// How many savepoints it has.
    pub savepoints: usize,
    /// How many ids of its own.
    pub ids: usize,
    pub snapshot: SandpiperSnapshot,
}

/// Whether a session with this isolation reads by statement.
fn reads_by_statement(isolation: &SessionIsolation) -> bool
    ensures { result ≡ reads_by_statement isolation.now }
{
    match isolation {
        SessionIsolation::BySnapshot(_) => false,
        SessionIsolation::ByStatement(_) => true,
    }
}

/// The number of a cursor, or of none.
fn number_of_cursor(cursor: Option<CursorScan>) -> u32
    ensures { result ≡ number_of_cursor cursor }
{
    match cursor {
        None => 0,
        Some(CursorScan::Rows(Scan::Index(_))) => 1,
        Some(CursorScan::Rows(Scan::Heap(_))) => 2,
        Some(CursorScan::Keys(_)) => 3,
    }
}

/// What C reads of the snapshot that a session keeps, or of none.
fn of_snapshot(isolation: &SessionIsolation) -> SandpiperSnapshot
    ensures { result ≡ shown_snapshot (kept_by isolation.now) }
{
    match isolation.lasting_snapshot() {
        None => SandpiperSnapshot {
            is_kept: false,
            is_overflowed: false,
            xmin: 0,
            xmax: 0,
            listed: 0,
        },
        Some(snapshot) => SandpiperSnapshot {
            is_kept: true,
            is_overflowed: snapshot.is_overflowed(),
            xmin: snapshot.xmin().0,
            xmax: snapshot.xmax().0,
            listed: snapshot.listed_ids().len(),
        },
    }
}

/// What C reads of a session that waits for another, or for none.
fn of_session(session: &Session, waits_for: Option<u8>) -> SandpiperSession
    ensures { result ≡ shown_session session.now waits_for }
{
    SandpiperSession {
        is_by_statement: reads_by_statement(&session.isolation),
        has_failed: session.failed,
        is_waiting: waits_for.is_some(),
        waits_for: waits_for.unwrap_or(0),
        cursor: number_of_cursor(session.cursor),
        savepoints: session.own.savepoints(),
        ids: session.own.as_slice().len(),
        snapshot: of_snapshot(&session.isolation),
    }
}

/// The session, if it is open, be it failed or not ([`session_core::Engine::session`]).
pub fn session_in(engine: &Engine, session: u8) -> Result<SandpiperSession, Refusal>
    ensures { MatchResult result (IsSessionShown engine.now session)
        (λ refusal. BarsOpen (engine_sessions engine.now.engine.core) session refusal) }
{
    match engine.session(session) {
        Ok(open) => Ok(of_session(open, engine.wait_of(session))),
        Err(refusal) => Err(refusal),
    }
}

/// The id of this number, counted from 0, of the session's own, in the order of giving, if it has so many.
pub fn own_id(engine: &Engine, session: u8, n: usize) -> Result<Option<u32>, Refusal>
    ensures { MatchResult result (IsOwnId engine.now.engine.core session n)
        (λ refusal. BarsOpen (engine_sessions engine.now.engine.core) session refusal) }
{
    match engine.session(session) {
        Ok(open) => match open.own.as_slice().get(n) {
            Some(id) => Ok(Some(id.0)),
            None => Ok(None),
        },
        Err(refusal) => Err(refusal),
    }
}

/// How many ids of its own the session had at a savepoint, if it has so many savepoints: 0 stands for the newest, 1 for the one before.
pub fn ids_at_savepoint(
    engine: &Engine,
    session: u8,
    savepoint: usize,
) -> Result<Option<usize>, Refusal>
    ensures { MatchResult result (AreIdsAt engine.now.engine.core session savepoint)
        (λ refusal. BarsOpen (engine_sessions engine.now.engine.core) session refusal) }
{
    match engine.session(session) {
        Ok(open) => Ok(open.own.ids_at(savepoint)),
        Err(refusal) => Err(refusal),
    }
}

/// The id of this number that the snapshot of a session lists, if it keeps one and that lists so many.
fn listed_in(isolation: &SessionIsolation, n: usize) -> Option<u32>
    ensures { result ≡ listed_in (kept_by isolation.now) n }
{
    match isolation.lasting_snapshot() {
        Some(snapshot) => snapshot.listed_ids().get(n).copied(),
        None => None,
    }
}

/// The id of this number, counted from 0, of those that the session's snapshot lists, if it lists so many.
pub fn listed_id(engine: &Engine, session: u8, n: usize) -> Result<Option<u32>, Refusal>
    ensures { MatchResult result (IsListedId engine.now.engine.core session n)
        (λ refusal. BarsOpen (engine_sessions engine.now.engine.core) session refusal) }
{
    match engine.session(session) {
        Ok(open) => Ok(listed_in(&open.isolation, n)),
        Err(refusal) => Err(refusal),
    }
}
