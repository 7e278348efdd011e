//! What may be done with a version.

/// What may be done with a version.
#[derive(Clone, Copy, Debug, PartialEq, Eq)]
pub enum Fate {
    /// No snapshot that is open, or taken later, sees it.
    Dead,
    /// Somebody may see it.
    Kept,
}
