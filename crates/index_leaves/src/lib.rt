//! The leaves of an index: at most 128 entries that stand together in memory.
//!
//! A [`Leaf`] is a [`Node`](index_entries::Node). It begins with places for 64 entries, and takes a list for 128 of the [`SpareLists`] when
//! it needs more. It notes places in a row to which none of its entries leads, so that a sweep passes over it where all dead places are
//! among these.
//!
//! Why it is built so: docs/DECISIONS.md, under its name.
#![tactic(auto)]

mod leaf;
mod spare_lists;

pub use leaf::Leaf;
pub use spare_lists::SpareLists;
