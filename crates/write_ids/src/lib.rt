//! The ids of a write: each level of a session that has none is given one, the lowest first.
//!
//! [`needs_freeze`] says whether so many ids can be given, [`reserve_ids`] makes room for them in memory, and then [`take_ids`] gives them
//! without any (`specs/Ids.antt`).
#![tactic(auto)]

mod ids;

pub use ids::{needs_freeze, reserve_ids, take_ids};
