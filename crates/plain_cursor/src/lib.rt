//! Cursors of the plain program: rows as lists in the order of an index, of which some are passed over. It is slow on purpose. Its contracts are the definitions of the crate `history`.
#![tactic(auto)]

mod cursor;
mod order;

pub use cursor::{PlainCursor, all_keys};
pub use order::{Bounds, PlainOrder, has_key, is_wanted, place};
