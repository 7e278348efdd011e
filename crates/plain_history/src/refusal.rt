//! Why a write is refused.

use calls::Refusal;

/// Why a write was refused. After a conflict and a deadlock the session has failed; all others leave it as it was.
#[derive(Clone, Copy, Debug, PartialEq, Eq)]
pub enum Refused {
    /// For a reason that the engine has too.
    By(Refusal),
    /// An open session holds the key, and a wait for it would close a ring.
    Deadlock,
}
