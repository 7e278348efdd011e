//! The indexes of a table by their numbers: one by key, and one by each column for which it has one.
//!
//! There is one entry for a chain, in each index (README.HOT). `specs/Indexes.antt` says what a new version does to them, and
//! what room in memory that takes.
//!
//! Why it is built so: docs/DECISIONS.md, under its name.
#![tactic(auto)]

mod indexes;

pub use indexes::Indexes;
