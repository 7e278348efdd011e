//! The index of a table: an ordered set of entries.
//!
//! Callers see a [`RootIndex`] as the list of its entries in ascending order, with its kind. They also see the number of nodes in which
//! the entries are, and the number of inserts for which nodes are set aside (`specs/View.antt`). The contract promises that a call does
//! to the set of entries what it is named after and nothing else. It says so in the words of `index_entries`, which has the entries and
//! their order. `index_nodes` has the nodes. Here are three kinds of node above one another: trees of at most 128 branches, of 128
//! leaves, of 128 entries. The list of trees is shorter than a node's.
//!
//! Entries to dead places go piece by piece ([`RootIndex::remove_where`], `specs/Pieces.antt`). A piece goes from an entry on as far
//! as its leaf, and says where it ended, so that entries may come and go between two pieces. The dead places are a `DeadSet` of
//! `dead_places`.
//!
//! Why it is built so: docs/DECISIONS.md, under its name.
#![tactic(auto)]

mod index;
mod look_ups;
mod narrow;
mod progress;
mod root;

pub use index::{LookUp, PositionHint};
pub use index_entries::{Entry, members_determine};
pub use progress::Progress;
pub use root::RootIndex;
