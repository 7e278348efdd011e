//! Who reads, and what it sees.

ghost use Rattle.std.specs.Prelude.{◌≡◌, ◌≢◌, ◌↔◌, ◌⊎◌, IsTrue, None};
ghost use Rattle.tuple_header.specs.Faults.{header_fault};
ghost use Rattle.visibility.specs.Visible.{IsFrozen};
ghost use Rattle.visibility.specs.Reading.{IsReadBy, IsSeenBy};

use commit_status::StatusTable;
use snapshot::{OwnIds, Snapshot};
use tuple_header::{Header, Tuple};
use xid_circle::Xid;

/// Who reads: by what a version is seen, or is not.
#[derive(Clone, Copy)]
pub struct Reader<'a> {
    /// Its snapshot.
    pub snapshot: &'a Snapshot,
    /// Its own ids.
    pub own: &'a OwnIds,
    /// What became of each id.
    pub statuses: &'a StatusTable,
}

impl Reader<'_> {
    /// Whether it counts what an id did: it is its own, or seen and committed.
    pub fn reads(&self, x: Xid) -> bool
        ensures { IsTrue result ↔ IsReadBy self.now x.0 }
    {
        if self.own.contains(x) {
            return true;
        }
        self.statuses.is_committed(x) && self.snapshot.sees(x, self.statuses)
    }

    /// Whether it counts the making of a version.
    fn counts_making(&self, header: &Header) -> bool
        requires { header_fault header.now ≡ None }
        ensures { IsTrue result
            ↔ (IsFrozen header.now ⊎ IsReadBy self.now header.now.xmin.0) }
    {
        header.is_frozen() || self.reads(header.xmin)
    }

    /// Whether it counts the deletion of a version.
    fn counts_deletion(&self, header: &Header) -> bool
        requires { header_fault header.now ≡ None }
        ensures { IsTrue result
            ↔ ((header.now.xmax.0 ≢ 0) × IsReadBy self.now header.now.xmax.0) }
    {
        header.xmax.0 != 0 && self.reads(header.xmax)
    }

    /// Whether it sees the version with this header. No hint is read.
    pub fn sees(&self, header: &Header) -> bool
        requires { header_fault header.now ≡ None }
        ensures { IsTrue result ↔ IsSeenBy self.now header.now }
    {
        self.counts_making(header) && !self.counts_deletion(header)
    }

    /// Whether it sees a version. No hint is read. (It is for who has a version whole.)
    pub fn sees_version(&self, tuple: &Tuple) -> bool
        ensures { IsTrue result ↔ IsSeenBy self.now tuple.now.header }
    {
        self.sees(&tuple.header)
    }
}
