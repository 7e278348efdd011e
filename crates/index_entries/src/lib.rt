//! The entries of an index: their order, and what a node of them owes the one above it.
//!
//! An entry is a value, the key of a row, and the place of a chain's root. PostgreSQL's manual (Heap-Only Tuples) says that
//! an index entry points at the root of a chain. The order is by value, then key, then page, then slot (`specs/Order.antt`),
//! and [`members_determine`] says that there is only one ascending list with the same entries. What a call does to the set of
//! all entries, and what it looks for there, is in `specs/Sets.antt`; what a sweep does to a list of them, in
//! `specs/Sweeps.antt`.
//!
//! A [`Node`] is a leaf or a branch, whatever they are made of. For the crates above, `proofs/LookUpLemmas.antt` says what
//! look-ups find one after another.
//!
//! Why it is built so: docs/DECISIONS.md, under its name.
#![tactic(auto)]

mod entry;
mod node;

pub use entry::{Entry, compare, is_before, is_same, members_determine};
pub use node::{HALF, Half, MOST_PARTS, Node, Swept};
