//! What became of each transaction id, from the oldest that is remembered up to the next to be given.
//!
//! The contract sees a [`StatusTable`] as the window of `specs/Window.antt`. It promises what each call does to that
//! (`specs/Changes.antt`). Ids are given one after another, none of them as far from the oldest as the table's stop age. A change of
//! status, of several ids at once, changes no other id. Only the ids before the one named are forgotten. One that is not remembered counts
//! as in progress.
//!
//! Why it is built so: docs/DECISIONS.md, under its name.
#![tactic(auto)]

mod entries;
pub mod laws;
mod status;
mod table;

pub use status::{GiveFault, Status};
pub use table::StatusTable;
