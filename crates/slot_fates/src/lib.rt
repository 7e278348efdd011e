//! The fate of a slot: what pruning would do to it now, and why not more.
//!
//! [`slot_fate`] tells it of any slot of any page, without memory, as `specs/Fates.antt` defines it. The laws (`specs/Laws.antt`)
//! say that a version has one fate, and that `prune` takes from a sound page exactly the versions whose fate says so.
#![tactic(auto)]

mod fate;
pub mod laws;
mod telling;

pub use fate::{DeletedBy, SlotFate, VersionFate};
pub use telling::slot_fate;
