//! The snapshot of a moment.

ghost use Rattle.std.specs.Prelude.{◌≡◌, ◌<◌, length, IfOk, OnErr};
ghost use Rattle.snapshot.specs.Snap.{taken};
ghost use Rattle.xid_circle.specs.Circle.{IsNormal};
ghost use Rattle.sessions.specs.Session.{owns_of};

use crate::session::Session;
use snapshot::Snapshot;
use std::alloc::{AllocError, Global};
use xid_circle::Xid;

/// A snapshot of the ids as they are, where this one is the next to be given.
pub fn take_snapshot(
    alloc: Global,
    next: Xid,
    sessions: &[Option<Session>],
) -> Result<Snapshot, AllocError>
    requires { IsNormal next.0 }
    ensures ok { IfOk result (λ s. s ≡ taken next.0 (owns_of sessions.now)) }
    ensures err { OnErr result (8 < length (taken next.0 (owns_of sessions.now)).listed) }
{
    let mut snapshot = Snapshot::empty(alloc, next);
    for session in sessions {
        if let Some(session) = session {
            snapshot.add_transaction(&session.own)?;
        }
    }
    Ok(snapshot)
}
