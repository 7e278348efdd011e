//! The session that holds the horizon back, and the session that has an id.

ghost use Rattle.std.specs.Prelude.{◌≡◌, ◌<◌, ◌↔◌, ℕ, IsTrue, IsSome, MatchOption, take, Contains};
ghost use Rattle.commit_status.specs.Window.{IsActive};
ghost use Rattle.calls.specs.declared.step.TheConstants.{MOST_SESSIONS};
ghost use Rattle.session_steps.specs.State.{horizon_of};
ghost use Rattle.sessions.specs.Session.{kept_by, kept_xmin, holds_back};
ghost use Rattle.session_looks.specs.Holders.{HoldsBy, HoldsHorizon, IsNoHolder, IsHolder, HasId};

use session_steps::{Session, SessionEngine, SessionIsolation};
use snapshot::OwnIds;
use xid_circle::Xid;

/// By what a session holds the horizon back.
#[derive(Clone, Copy, Debug, PartialEq, Eq)]
pub enum Hold {
    /// By the snapshot that it keeps, whose xmin the horizon is.
    BySnapshot,
    /// By its first id.
    ById,
}

/// The session that holds the horizon back, and by what.
#[derive(Clone, Copy, Debug, PartialEq, Eq)]
pub struct HorizonHolder {
    /// The lowest session that does.
    pub session: u8,
    /// By what.
    pub by: Hold,
}

/// True where an id is the xmin of the snapshot that a session keeps.
fn is_kept_xmin(isolation: &SessionIsolation, x: Xid) -> bool
    ensures { IsTrue result ↔ Contains (kept_xmin (kept_by isolation.now)) x.0 }
{
    match isolation.lasting_snapshot() {
        Some(snapshot) => snapshot.xmin().0 == x.0,
        None => false,
    }
}

/// True where an id is the first of own ids.
fn is_first(own: &OwnIds, x: Xid) -> bool
    ensures { IsTrue result ↔ Contains (take 1 own.now.ids) x.0 }
{
    match own.first() {
        Some(first) => first.0 == x.0,
        None => false,
    }
}

/// By what a session holds an id back, if it does.
fn hold_of(session: &Session, x: Xid) -> Option<Hold>
    ensures { MatchOption result (¬ Contains (holds_back session.now) x.0)
        (λ by. HoldsBy by session.now x.0) }
{
    if is_kept_xmin(&session.isolation, x) {
        return Some(Hold::BySnapshot);
    }
    if is_first(&session.own, x) {
        return Some(Hold::ById);
    }
    None
}

/// By what the session holds the horizon back, if it is open and does.
fn hold_at(engine: &SessionEngine, s: u8, horizon: Xid) -> Option<Hold>
    requires within { s < MOST_SESSIONS }
    requires horizon { horizon.0 ≡ horizon_of engine.now }
    ensures { MatchOption result (IsNoHolder engine.now s) (HoldsHorizon engine.now s) }
{
    match engine.open_session(s) {
        Ok(session) => hold_of(session, horizon),
        Err(_) => None,
    }
}

/// The lowest session that holds the horizon back. Where none does, the horizon is the next id.
pub fn horizon_holder(engine: &SessionEngine) -> Option<HorizonHolder>
    ensures { IsHolder engine.now result }
{
    engine.fact_set_up();
    let horizon = engine.horizon();
    for session in 0..64u8 {
        if let Some(by) = hold_at(engine, session, horizon) {
            return Some(HorizonHolder { session, by });
        }
    }
    None
}

/// True where the session is open, and has the id.
fn has_id(engine: &SessionEngine, s: u8, x: Xid) -> bool
    requires { s < MOST_SESSIONS }
    ensures { IsTrue result ↔ HasId engine.now x.0 s }
{
    match engine.open_session(s) {
        Ok(session) => session.own.contains(x),
        Err(_) => false,
    }
}

/// The open session that has an id, if one has. Each id in progress is a session's, and no other's.
pub fn owner_of(engine: &SessionEngine, x: Xid) -> Option<u8>
    ensures owner { MatchOption result ((s : ℕ) → ¬ HasId engine.now x.0 s)
        (HasId engine.now x.0) }
    ensures running { IsActive engine.now.heap.statuses x.0 → IsSome result }
{
    engine.fact_set_up();
    for s in 0..64u8 {
        if has_id(engine, s, x) {
            return Some(s);
        }
    }
    None
}
