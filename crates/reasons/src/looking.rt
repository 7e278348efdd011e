//! The reasons, looked up.

ghost use Rattle.std.specs.Prelude.{◌≡◌, ◌↔◌, IsTrue, None, true};
ghost use Rattle.tuple_header.specs.Faults.{header_fault};
ghost use Rattle.visibility.specs.Reading.{IsReadBy, IsSeenBy};
ghost use Rattle.reasons.specs.Sightings.{IsXidStanding, AsksParent, IsSighting};
ghost use Rattle.reasons.specs.Reasons.{IsReasonOf, IsReasonFor, IsMakerFor, IsDeleterFor, IsVerdictFor, counts, verdict_shows};

use crate::reason::{Reason, Touch, Verdict};
use crate::sighting::{Sighting, XidStanding};
use commit_status::{Status, StatusTable};
use snapshot::Snapshot;
use tuple_header::Header;
use visibility::Reader;
use xid_circle::{Xid, precedes};

/// Where an id stands to a snapshot.
fn standing_of(x: Xid, snapshot: &Snapshot) -> XidStanding
    ensures { IsXidStanding snapshot.now x.0 result }
{
    if precedes(x, snapshot.xmin()) {
        return XidStanding::Before(snapshot.xmin());
    }
    if !precedes(x, snapshot.xmax()) {
        return XidStanding::NotBefore(snapshot.xmax());
    }
    if snapshot.is_listed(x) {
        return XidStanding::Listed;
    }
    XidStanding::Unlisted
}

/// Whether the topmost parent of an id is asked.
fn asks_parent(x: Xid, snapshot: &Snapshot) -> bool
    ensures { IsTrue result ↔ AsksParent snapshot.now x.0 }
{
    snapshot.is_overflowed() && !precedes(x, snapshot.xmin()) && precedes(x, snapshot.xmax())
}

/// Why a snapshot sees an id, or does not.
pub fn sighting_of(x: Xid, snapshot: &Snapshot, statuses: &StatusTable) -> Sighting
    ensures { IsSighting snapshot.now statuses.now x.0 result }
{
    if asks_parent(x, snapshot) {
        let top = statuses.top_of(x);
        return Sighting::ByParent(top, standing_of(top, snapshot));
    }
    Sighting::ByItself(standing_of(x, snapshot))
}

/// The reason of an id that is none of the reader's own.
fn reason_of(x: Xid, snapshot: &Snapshot, statuses: &StatusTable) -> Reason
    ensures { IsReasonOf statuses.now snapshot.now x.0 result }
{
    if !statuses.remembers(x) {
        return Reason::Forgotten;
    }
    match statuses.status(x) {
        Status::InProgress => Reason::Running,
        Status::Aborted => Reason::Aborted,
        Status::Committed => Reason::Committed(sighting_of(x, snapshot, statuses)),
    }
}

/// Why a reader counts what an id did, or does not.
pub fn reason_for(reader: &Reader<'_>, x: Xid) -> Reason
    ensures reason { IsReasonFor reader.now x.0 result }
    ensures decides { IsReadBy reader.now x.0 ↔ (counts result ≡ true) }
{
    if reader.own.contains(x) {
        return Reason::Own;
    }
    reason_of(x, reader.snapshot, reader.statuses)
}

/// An id that made or deleted a version, with its reason.
fn touch_by(reader: &Reader<'_>, id: Xid) -> Touch
    ensures id { result.id ≡ id }
    ensures reason { IsReasonFor reader.now id.0 result.reason }
{
    Touch {
        id,
        reason: reason_for(reader, id),
    }
}

/// The maker of a version, unless it is frozen.
fn maker_of(reader: &Reader<'_>, header: &Header) -> Option<Touch>
    requires { header_fault header.now ≡ None }
    ensures { IsMakerFor reader.now header.now result }
{
    if header.is_frozen() {
        return None;
    }
    Some(touch_by(reader, header.xmin))
}

/// Its deleter, if there is one.
fn deleter_of(reader: &Reader<'_>, header: &Header) -> Option<Touch>
    requires { header_fault header.now ≡ None }
    ensures { IsDeleterFor reader.now header.now result }
{
    if header.xmax.0 == 0 {
        return None;
    }
    Some(touch_by(reader, header.xmax))
}

/// Why a reader sees a version with this header, or does not. No hint is read.
pub fn verdict_on(reader: &Reader<'_>, header: &Header) -> Verdict
    requires { header_fault header.now ≡ None }
    ensures verdict { IsVerdictFor reader.now header.now result }
    ensures decides { IsSeenBy reader.now header.now ↔ (verdict_shows result ≡ true) }
{
    Verdict {
        maker: maker_of(reader, header),
        deleter: deleter_of(reader, header),
    }
}
