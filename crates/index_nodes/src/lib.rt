//! Nodes of an index, one after another, and the branches that are made of them.
//!
//! A [`Branch`] has at most 128 nodes, and is one itself ([`Node`](index_entries::Node)). So look-ups, inserts and sweeps are
//! written and proved once for all (`nodes.rt`, `specs/Nodes.antt`). An insert moves no more than a node's parts.
//!
//! Why it is built so: docs/DECISIONS.md, under its name.
#![tactic(auto)]

mod branch;
pub mod nodes;

pub use branch::Branch;
pub use nodes::{Spares, TreePosition};
