//! The statuses of the ids that were asked for last, and which versions a reader sees by them.
//!
//! A [`StatusCache`] holds committed and aborted ids alone, since these stay as they are. The contract sees it as pairs of an id
//! and its status, the last asked for first. While it agrees with a table (`specs/Held.antt`), [`StatusCache::status`] answers as
//! the table does, and [`visible_cached`] as the reader does without a cache. The laws (`specs/Laws.antt`) say that it goes on to
//! agree when an id is given and when ids finish. They say the same of when old ids are forgotten and the cache is truncated with
//! the table.
//!
//! Why it is built so: docs/DECISIONS.md, under its name.
#![tactic(auto)]

mod cache;
pub mod laws;
mod visible;

pub use cache::{MOST_STATUSES, StatusCache};
pub use visible::{sees_cached, visible_cached};
