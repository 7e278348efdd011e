//! The properties of a table that each step keeps: of its pages, its ids and its indexes.
//!
//! `heap_write` says exactly what a write, a pruning or a refusal leaves of a table. The laws here say what that means. The pages of a
//! sound table stay sound. The entries of each of its indexes go on to lead to the roots of chains of their values (`specs/Table.antt`,
//! `specs/Laws.antt`). Nobody else can tell that a transaction wrote, and it finds what it wrote itself (`specs/Readers.antt`,
//! `specs/ByKey.antt`). Each law is the contract of a function that does nothing.
//!
//! Why it is built so: docs/DECISIONS.md, under its name.
#![tactic(auto)]

pub mod laws;
mod readers;

pub use readers::{
    applying_is_unseen, delete_is_found, delete_takes_row, deleting_is_unseen, insert_is_found,
    insert_puts_row, inserting_is_unseen, pruning_is_unseen, update_is_found, update_puts_row,
    updating_is_unseen,
};
