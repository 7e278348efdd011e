//! Why a session sees a version, or does not.

ghost use Rattle.std.specs.Prelude.{◌≡◌, MatchResult};
ghost use Rattle.std.specs.Option.{option_map};
ghost use Rattle.calls.specs.Bars.{BarsOpen};
ghost use Rattle.session_steps.specs.State.{engine_sessions};
ghost use Rattle.c_views.specs.Entries.{tid_of};
ghost use Rattle.c_views.specs.Reasons.{number_of_standing, number_of_parent, limit_of, shown_sighting, shown_reason, shown_touch, shown_in, IsShownTo};

use crate::entry::SandpiperPlace;
use reasons::{Reason, Sighting, Touch, XidStanding};
use session_core::{Engine, Refusal, ShownVersion};
use xid_circle::{Tid, Xid};

/// An id that made a version or took it away, and why the session counts that, or does not.
#[repr(C)]
#[derive(Clone, Copy)]
pub struct SandpiperReason {
    /// The id: 0 where nobody took the version away, or where it is frozen, so that its making counts for everybody.
    pub id: u32,
    /// 0 if there is none. 1 if the id is the session's own, 2 if it is not remembered, 3 if it is in progress, 4 if it was rolled back. Else
    /// it has committed, and is 5 before the snapshot's xmin, 6 not before its xmax, 7 listed, or 8 not listed. From 9 to 12 its topmost
    /// parent is that, since the snapshot does not list all children.
    pub reason: u32,
    /// Of 5 and 9 the snapshot's xmin, of 6 and 10 its xmax, else 0.
    pub limit: u32,
    /// From 9 on the topmost parent, else 0.
    pub parent: u32,
}

/// A version of a row, and why the session sees it, or does not.
#[repr(C)]
#[derive(Clone, Copy)]
pub struct SandpiperShown {
    /// Its slot.
    pub slot: u16,
    /// Whether the session sees it: its making counts, and no deletion does.
    pub is_seen: bool,
    /// Who made it.
    pub maker: SandpiperReason,
    /// Who took it away.
    pub deleter: SandpiperReason,
}

/// The number of an id's own standing.
fn number_of_standing(standing: XidStanding) -> u32
    ensures { result ≡ number_of_standing standing }
{
    match standing {
        XidStanding::Before(_) => 5,
        XidStanding::NotBefore(_) => 6,
        XidStanding::Listed => 7,
        XidStanding::Unlisted => 8,
    }
}

/// The number of a topmost parent's standing.
fn number_of_parent(standing: XidStanding) -> u32
    ensures { result ≡ number_of_parent standing }
{
    match standing {
        XidStanding::Before(_) => 9,
        XidStanding::NotBefore(_) => 10,
        XidStanding::Listed => 11,
        XidStanding::Unlisted => 12,
    }
}

/// The id beside which the standing was told, or 0.
fn limit_of(standing: XidStanding) -> u32
    ensures { result ≡ limit_of standing }
{
    match standing {
        XidStanding::Before(limit) | XidStanding::NotBefore(limit) => limit.0,
        XidStanding::Listed | XidStanding::Unlisted => 0,
    }
}

/// A committed id, and where it stands to the snapshot.
fn of_sighting(id: Xid, sighting: Sighting) -> SandpiperReason
    ensures { result ≡ shown_sighting id.0 sighting }
{
    match sighting {
        Sighting::ByItself(standing) => SandpiperReason {
            id: id.0,
            reason: number_of_standing(standing),
            limit: limit_of(standing),
            parent: 0,
        },
        Sighting::ByParent(top, standing) => SandpiperReason {
            id: id.0,
            reason: number_of_parent(standing),
            limit: limit_of(standing),
            parent: top.0,
        },
    }
}

/// An id with a reason that is told by its number alone.
fn plain(id: u32, reason: u32) -> SandpiperReason
    ensures { result ≡ record { id = id; reason = reason; limit = 0; parent = 0 } }
{
    SandpiperReason {
        id,
        reason,
        limit: 0,
        parent: 0,
    }
}

/// An id with its reason.
fn of_reason(id: Xid, reason: Reason) -> SandpiperReason
    ensures { result ≡ shown_reason id.0 reason }
{
    match reason {
        Reason::Own => plain(id.0, 1),
        Reason::Forgotten => plain(id.0, 2),
        Reason::Running => plain(id.0, 3),
        Reason::Aborted => plain(id.0, 4),
        Reason::Committed(sighting) => of_sighting(id, sighting),
    }
}

/// Who made a version, or took it away, if anybody did.
fn of_touch(touch: Option<Touch>) -> SandpiperReason
    ensures { result ≡ shown_touch touch }
{
    match touch {
        None => plain(0, 0),
        Some(touch) => of_reason(touch.id, touch.reason),
    }
}

/// What C reads of a version that is shown.
fn of_shown(version: ShownVersion) -> SandpiperShown
    ensures { result ≡ shown_in version }
{
    SandpiperShown {
        slot: version.slot,
        is_seen: version.verdict.shows(),
        maker: of_touch(version.verdict.maker),
        deleter: of_touch(version.verdict.deleter),
    }
}

/// The version at a place of the chain to which an entry leads, counted from 0, if the chain is so long. The answer also says why a
/// statement of the session, begun now, sees it, or does not ([`session_core::Engine::explain`]).
pub fn explanation(
    engine: &Engine,
    session: u8,
    entry: SandpiperPlace,
    n: usize,
) -> Result<Option<SandpiperShown>, Refusal>
    ensures { MatchResult result
        (IsShownTo engine.now.engine.core session (tid_of entry) n)
        (λ refusal. BarsOpen (engine_sessions engine.now.engine.core) session refusal) }
{
    let place = Tid {
        page: entry.page,
        slot: entry.slot,
    };
    match engine.explain(session, place, n) {
        Ok(Some(version)) => Ok(Some(of_shown(version))),
        Ok(None) => Ok(None),
        Err(refusal) => Err(refusal),
    }
}
