//! The entries of a leaf, column by column: 12 bytes of each in an index by key, or in a narrow one by a column, and 20 in any other.
//!
//! Callers see [`EntryColumns`] as the list of its entries. An entry is a [`Label`], which has its value and its key, and a place; so an
//! index by key has its keys but once. Who looks for dead places goes over the places alone. What fits is in `specs/Fits.antt`.
//!
//! Why it is built so: docs/DECISIONS.md, under its name.
#![tactic(auto)]

mod columns;
mod gap;
mod label;
mod short_tid;

pub use columns::{EntryColumns, fits};
pub use gap::{Gap, all_places, holds, without};
pub use label::{ColumnLabel, KeyLabel, Label, NarrowLabel};
pub use short_tid::PAGES;
