//! The pages of a table, and which of them takes a new version.
//!
//! Callers see [`Pages`] as the list of its pages, with a count of how many more can be added without memory (`specs/View.antt`). A page
//! is read by [`Pages::page`]. It is changed through [`Pages::edit`] or [`Pages::write`], which leave all others as they were. They keep
//! the free space map: after every call each byte there is that of its page. Which page takes a new version is defined in
//! `specs/Choice.antt`. Each page is in memory of its own, so none is copied where the table grows.
//!
//! Why it is built so: docs/DECISIONS.md, under its name.
#![tactic(auto)]

mod choice;
mod own_page;
mod pages;

pub use choice::free_byte;
pub use pages::{MOST_PAGES, Pages, Placement};
