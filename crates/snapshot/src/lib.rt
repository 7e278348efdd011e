//! What a reader sees of other transactions, and the ids that are its own.
//!
//! The contract promises that a [`Snapshot`] lists what `specs/Snap.antt` says, and sees an id exactly where that says so. It
//! promises that [`OwnIds`] keep the ids of an open transaction, and what was there at each savepoint, as `specs/Own.antt`
//! says. The laws (`specs/Laws.antt`) say what this means in time. What was in progress when a snapshot was taken, or was
//! given later, is unseen by it as long as its topmost parent stays the same. What had finished with its topmost parent is
//! seen.
//!
//! Why it is built so: docs/DECISIONS.md, under its name.
#![tactic(auto)]

mod horizon;
pub mod laws;
mod own;
mod snapshot;

pub use horizon::earlier;
pub use own::{MOST_SAVEPOINTS, OwnIds, SaveFault};
pub use snapshot::Snapshot;
