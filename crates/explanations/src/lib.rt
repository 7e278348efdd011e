//! Why a reader finds the row of a key, or none: the entries of the key, and the versions of the chain of each, with their reasons.
//!
//! [`next_place`] hands out where the entries lead, in order, and [`shown_version`] the versions of the chain there, one by one
//! (`specs/Shown.antt`): on any pages and any index, and without memory. A caller who asks until nothing is left has been shown
//! each version that a search along the entries may come to, and each verdict is that of `reasons`.
#![tactic(auto)]

mod entries;
mod versions;

pub use entries::next_place;
pub use versions::{ShownVersion, shown_version};
