//! The chain of versions that a slot leads to.
//!
//! [`chain`] lists what `specs/Chain.antt` defines, on any page, however its links go. By [`chain_is_one`] a slot has one chain.
//! [`first_seen`] answers in which slot of a chain the first version is that the reader sees, and goes no further. [`fetch`] answers that
//! version. [`next_in_chain`] says where a chain goes on from a slot. [`root_of`] gives the lowest root or redirect whose chain holds a
//! slot. The contract promises all this. None takes memory.
//!
//! Why it is built so: docs/DECISIONS.md, under its name.
#![tactic(auto)]

mod fetching;
mod roots;
mod walk;

pub use fetching::{fetch, first_seen};
pub use roots::{is_root, root_of};
pub use walk::{chain, chain_is_one, list_chain, next_in_chain};
