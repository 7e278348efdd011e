//! Ids that made or deleted a version.

ghost use Rattle.std.specs.Prelude.{◌≡◌, IsTrue, ◌↔◌, None, Contains};
ghost use Rattle.xid_circle.specs.Circle.{IsNormal};
ghost use Rattle.tuple_header.specs.Faults.{header_fault};
ghost use Rattle.snapshot.specs.Snap.{Sees};
ghost use Rattle.visibility.specs.Seeing.{HasCommitted, IsRunning};
ghost use Rattle.visibility.specs.Visible.{state_of};
ghost use Rattle.visibility.specs.Reading.{IsOtherWriterFor, IsNewerCommitFor};
ghost use Rattle.index_lookup.specs.Looking.{IsIdIn};

use commit_status::Status;
use tuple_header::Header;
use visibility::Reader;
use xid_circle::Xid;

/// True where the id is committed, and the reader's snapshot sees it.
#[inline(always)]
pub(crate) fn sees_committed(x: Xid, reader: &Reader<'_>) -> bool
    ensures { IsTrue result
        ↔ (HasCommitted (state_of reader.now.statuses.now) x.0
        × Sees reader.now.snapshot.now reader.now.statuses.now x.0) }
{
    reader.statuses.is_committed(x) && reader.snapshot.sees(x, reader.statuses)
}

/// True where the id is committed, and the reader's snapshot does not see it.
fn is_newer_commit(x: Xid, reader: &Reader<'_>) -> bool
    requires { IsNormal x.0 }
    ensures { IsTrue result
        ↔ (HasCommitted (state_of reader.now.statuses.now) x.0
        × (Sees reader.now.snapshot.now reader.now.statuses.now x.0 → ⊥)) }
{
    reader.statuses.is_committed(x) && !reader.snapshot.sees(x, reader.statuses)
}

/// A committed id that made or deleted the version, and that the reader's snapshot does not see.
pub(crate) fn newer_commit_in(header: &Header, reader: &Reader<'_>) -> Option<Xid>
    requires { header_fault header.now ≡ None }
    ensures { IsIdIn (IsNewerCommitFor reader.now) header.now result }
{
    if !header.is_frozen() && is_newer_commit(header.xmin, reader) {
        return Some(header.xmin);
    }
    if header.xmax.0 != 0 && is_newer_commit(header.xmax, reader) {
        return Some(header.xmax);
    }
    None
}

/// True where the id is in progress, and none of the reader's own. An id that the table has forgotten is over, whatever its status.
fn is_other_writer(x: Xid, reader: &Reader<'_>) -> bool
    requires { IsNormal x.0 }
    ensures { IsTrue result
        ↔ (IsRunning (state_of reader.now.statuses.now) x.0
        × (Contains reader.now.own.now.ids x.0 → ⊥)) }
{
    match reader.statuses.status(x) {
        Status::InProgress => reader.statuses.remembers(x) && !reader.own.contains(x),
        _ => false,
    }
}

/// An id in progress, none of the reader's own, that made or deleted the version.
pub(crate) fn other_writer_in(header: &Header, reader: &Reader<'_>) -> Option<Xid>
    requires { header_fault header.now ≡ None }
    ensures { IsIdIn (IsOtherWriterFor reader.now) header.now result }
{
    if !header.is_frozen() && is_other_writer(header.xmin, reader) {
        return Some(header.xmin);
    }
    if header.xmax.0 != 0 && is_other_writer(header.xmax, reader) {
        return Some(header.xmax);
    }
    None
}
