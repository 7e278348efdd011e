//! The open sessions of a table: how each reads, what ids it has, and what all of them hold back.
//!
//! A [`Session`] reads by the snapshot of its beginning, or each statement by one of its own (`specs/Session.antt`). [`Sessions`] has
//! places for 64 of them (`specs/Places.antt`). [`take_snapshot`], [`horizon`] and [`own_from`] look at all that are open,
//! [`owner`] and [`first_with_id`] for one of them. Of an index that is made in use each session notes whether it may scan it (`specs/Marks.antt`).
#![tactic(auto)]

mod held;
mod marking;
mod searches;
mod session;
mod sessions;
mod snapshots;

pub use held::horizon;
pub use searches::{first_with_id, own_from, owner};
pub use session::{Session, SessionIsolation};
pub use sessions::Sessions;
pub use snapshots::take_snapshot;
