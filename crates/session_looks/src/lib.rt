//! Looks: why a session finds what it finds, who holds the horizon back, and why a version is still there.
//!
//! They are no steps: they change nothing, and take no memory. [`next_entry`] and [`explain`] tell the entries of a key, and the
//! versions of the chain of each with their reasons. [`laws::explanations_show_the_view`] says that exactly one version is told as
//! seen, with the row of the session's view, or none. [`slot_fate`] and [`plan`] tell what a pruning would do,
//! [`laws::fates_foresee_pruning`] that it does so, [`horizon_holder`] which session holds the horizon back, and [`owner_of`] which
//! session has an id.
#![tactic(auto)]

mod explaining;
mod holder;
pub mod laws;

pub use explaining::{explain, next_entry, plan, slot_fate};
pub use explanations::ShownVersion;
pub use holder::{Hold, HorizonHolder, horizon_holder, owner_of};
pub use prune::PrunePlan;
pub use slot_fates::SlotFate;
