//! How a vacuum goes over the table, and what one of its steps does.

/// Which pages a vacuum passes over. (The manual's "Routine Vacuuming".)
#[derive(Clone, Copy, Debug, PartialEq, Eq)]
pub enum Mode {
    /// Those that are all-visible.
    Normal,
    /// Only those that are all-frozen. At its end old ids are forgotten.
    Aggressive,
}

/// What one step did.
#[derive(Clone, Copy, Debug, PartialEq, Eq)]
pub enum Piece {
    /// Visited this page: pruned it, froze it, and collected dead slots.
    Heap(u32),
    /// Removed entries to collected slots from a piece of this index.
    Index(u8),
    /// Made the collected slots of this page unused.
    Free(u32),
}
