//! Where the newest root of each key was made, as far as it is known.
//!
//! Why it is built so: docs/DECISIONS.md, under its name.
#![tactic(auto)]

mod places;

pub use places::{KeyPlaces, RootHint};
