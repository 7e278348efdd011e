//! The horizon: the earliest id that an open session may still ask for.

ghost use Rattle.std.specs.Prelude.{◌≡◌, take};
ghost use Rattle.snapshot.specs.Snap.{earliest};
ghost use Rattle.sessions.specs.Session.{held_back, holds_back};

use crate::session::Session;
use snapshot::{OwnIds, earlier};
use xid_circle::Xid;

/// The earlier of an id and the first of own ids, if there is one.
fn earlier_own(own: &OwnIds, x: Xid) -> Xid
    ensures { result.0 ≡ earliest x.0 (take 1 own.now.ids) }
{
    match own.first() {
        Some(first) => earlier(x, first),
        None => x,
    }
}

/// The earlier of an id and those that the session holds back: the xmin of the snapshot that it keeps, if it keeps one, and its
/// first id.
fn hold_back(session: &Session, x: Xid) -> Xid
    ensures { result.0 ≡ earliest x.0 (holds_back session.now) }
{
    earlier_own(&session.own, session.isolation.earlier_xmin(x))
}

/// The earliest of the next id and what open sessions hold back.
pub fn horizon(next: Xid, sessions: &[Option<Session>]) -> Xid
    ensures { result.0 ≡ earliest next.0 (held_back sessions.now) }
{
    let mut horizon = next;
    for session in sessions {
        if let Some(session) = session {
            horizon = hold_back(session, horizon);
        }
    }
    horizon
}
