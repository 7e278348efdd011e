//! Which versions a reader sees, by a cache of statuses.

ghost use Rattle.std.specs.Prelude.{◌≡◌, ◌≢◌, ◌↔◌, ◌⊎◌, IsTrue, None};
ghost use Rattle.tuple_header.specs.Faults.{header_fault};
ghost use Rattle.commit_status.specs.Window.{IsCommitted};
ghost use Rattle.visibility.specs.Visible.{IsFrozen};
ghost use Rattle.visibility.specs.Reading.{IsReadBy, IsSeenBy};
ghost use Rattle.status_cache.specs.Held.{CacheAgrees};

use crate::cache::StatusCache;
use commit_status::{Status, StatusTable};
use tuple_header::{Header, Tuple};
use visibility::Reader;
use xid_circle::Xid;

/// Whether an id was committed, as far as is remembered.
fn is_committed(cache: &mut StatusCache, statuses: &StatusTable, x: Xid) -> bool
    requires { CacheAgrees cache.old statuses.now }
    ensures value { IsTrue result ↔ IsCommitted statuses.now x.0 }
    ensures agrees { CacheAgrees cache.new statuses.now }
{
    matches!(cache.status(statuses, x), Status::Committed)
}

/// Whether the reader counts what an id did.
fn reads(reader: &Reader<'_>, x: Xid, cache: &mut StatusCache) -> bool
    requires { CacheAgrees cache.old reader.now.statuses.now }
    ensures value { IsTrue result ↔ IsReadBy reader.now x.0 }
    ensures agrees { CacheAgrees cache.new reader.now.statuses.now }
{
    if reader.own.contains(x) {
        return true;
    }
    is_committed(cache, reader.statuses, x) && reader.snapshot.sees(x, reader.statuses)
}

/// Whether it counts the making of a version.
fn counts_making(reader: &Reader<'_>, header: &Header, cache: &mut StatusCache) -> bool
    requires faultless { header_fault header.now ≡ None }
    requires agrees { CacheAgrees cache.old reader.now.statuses.now }
    ensures value { IsTrue result
        ↔ (IsFrozen header.now ⊎ IsReadBy reader.now header.now.xmin.0) }
    ensures agrees { CacheAgrees cache.new reader.now.statuses.now }
{
    header.is_frozen() || reads(reader, header.xmin, cache)
}

/// Whether it counts the deletion of a version.
fn counts_deletion(reader: &Reader<'_>, header: &Header, cache: &mut StatusCache) -> bool
    requires faultless { header_fault header.now ≡ None }
    requires agrees { CacheAgrees cache.old reader.now.statuses.now }
    ensures value { IsTrue result
        ↔ ((header.now.xmax.0 ≢ 0) × IsReadBy reader.now header.now.xmax.0) }
    ensures agrees { CacheAgrees cache.new reader.now.statuses.now }
{
    header.xmax.0 != 0 && reads(reader, header.xmax, cache)
}

/// Whether the reader sees the version with this header, as [`Reader::sees`] answers it. Statuses come from the cache, where it holds
/// the id, and else from the reader's table. No hint is read.
pub fn sees_cached(reader: &Reader<'_>, header: &Header, cache: &mut StatusCache) -> bool
    requires faultless { header_fault header.now ≡ None }
    requires agrees { CacheAgrees cache.old reader.now.statuses.now }
    ensures value { IsTrue result ↔ IsSeenBy reader.now header.now }
    ensures agrees { CacheAgrees cache.new reader.now.statuses.now }
{
    counts_making(reader, header, cache) && !counts_deletion(reader, header, cache)
}

/// Whether the reader sees a version, as [`Reader::sees_version`] answers it, by the cache as [`sees_cached`]. (It is for who
/// has a version whole.)
pub fn visible_cached(tuple: &Tuple, reader: &Reader<'_>, cache: &mut StatusCache) -> bool
    requires { CacheAgrees cache.old reader.now.statuses.now }
    ensures value { IsTrue result ↔ IsSeenBy reader.now tuple.now.header }
    ensures agrees { CacheAgrees cache.new reader.now.statuses.now }
{
    sees_cached(reader, &tuple.header, cache)
}
