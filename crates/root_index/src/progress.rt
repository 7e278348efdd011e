//! How far a sweep of an index came.

use index_entries::Entry;

/// How far a sweep of an index came.
#[derive(Clone, Copy, Debug, PartialEq, Eq)]
pub enum Progress {
    /// Up to and with this entry, which it removed or not. More come after it.
    More(Entry),
    /// To the end of the index.
    Done,
}
