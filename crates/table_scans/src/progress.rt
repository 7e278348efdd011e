//! How far a scan has got.

ghost use Rattle.std.specs.Prelude.{◌≡◌, None};
ghost use Rattle.table_scans.specs.Scans.{start_of};
ghost use Rattle.table_scans.specs.Keys.{span_of};

use index_lookup::{IndexPosition, IndexRange};
use xid_circle::Tid;

/// The rest of a scan. It keeps no rows: it looks for them as it goes on, for any reader.
#[derive(Clone, Copy, Debug, PartialEq, Eq)]
pub enum Scan {
    /// In the order of an index: what is left of a part of it.
    Index(IndexRange),
    /// Over the heap, by page and slot: from this place on.
    Heap(Tid),
}

/// The rest of a scan over keys alone: those between two bounds, both included, and after a place of the order of the index by key,
/// if one is given.
#[derive(Clone, Copy, Debug, PartialEq, Eq)]
pub struct KeyRange {
    /// The least key.
    pub low: i128,
    /// The greatest; one below `low` makes the range empty.
    pub high: i128,
    /// Only keys after this place are meant; where there is none, all.
    pub last: Option<IndexPosition>,
}

impl KeyRange {
    /// All keys from the one to the other.
    pub fn new(low: i128, high: i128) -> Self
        ensures { result ≡ record { low = low; high = high; last = None } }
    {
        KeyRange {
            low,
            high,
            last: None,
        }
    }

    /// The keys, as a part of the index by key.
    pub(crate) fn span(&self) -> IndexRange
        ensures { result ≡ span_of self.now }
    {
        IndexRange {
            index: 0,
            low: self.low,
            high: self.high,
            last: self.last,
        }
    }
}

/// The scan of a cursor: rows or keys, and how far it has got.
#[derive(Clone, Copy, Debug, PartialEq, Eq)]
pub enum CursorScan {
    /// The rows of a scan.
    Rows(Scan),
    /// Keys alone.
    Keys(KeyRange),
}

/// The place before all slots of a page.
pub fn start_of(page: u32) -> Tid
    ensures { result ≡ start_of page }
{
    Tid { page, slot: 0 }
}
