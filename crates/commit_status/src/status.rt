//! What becomes of an id, and why none is given.

use thiserror::Error;

/// What became of an id.
#[derive(Clone, Copy, Debug, PartialEq, Eq)]
pub enum Status {
    /// Its transaction is open.
    InProgress,
    /// Its transaction has committed.
    Committed,
    /// Its transaction, or its level of that, was rolled back.
    Aborted,
}

/// Why no id was given.
#[derive(Clone, Copy, Debug, PartialEq, Eq, Error)]
pub enum GiveFault {
    /// The next id is too far from the oldest that is remembered: old ids have to be frozen first.
    #[error("old ids have to be frozen first")]
    NeedsFreeze,
    /// Memory was refused.
    #[error("there is no memory")]
    NoMemory,
}
