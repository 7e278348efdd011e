//! The entries of an index that is made while the table is in use: one for each chain that holds a current row.
//!
//! [`list_current`] walks over all pages. `specs/Making.antt` says which entries these are, of any pages, sound or not.
#![tactic(auto)]

mod filling;
mod making;

pub use making::list_current;
