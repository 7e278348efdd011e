//! Places that are dead, in sets.
//!
//! Callers see a [`DeadSet`] as the list of its places in ascending order, by page, then slot (`specs/Places.antt`). Whoever goes
//! through an index asks of each place whether it is among them ([`DeadSet::contains`]): its mark tells, mostly at one look.
//!
//! Why it is built so: docs/DECISIONS.md, under its name.
#![tactic(auto)]

mod dead_set;
mod marks;
mod order;

pub use dead_set::{DeadSet, MOST_PLACES};
pub use order::compare_places;
