//! The search along the entries of an index, and along the chain to which each leads.
//!
//! A `Reader` looks at a [`TableView`]. [`place_of`], [`row_of`] and [`check_write`] go along the entries of one value and
//! one key, and [`place_from`] and [`row_from`] do so from the first of them, where that is known. [`next_row`] goes along an
//! index from place to place, and [`seen_row`] looks at one slot of a page. Their contracts speak of entries and chains
//! alone (`specs/Looking.antt`, `specs/Walking.antt`), on any pages and any index, sound or not; the laws of `sound_entries`
//! tie them to the heap. [`next_key`] goes along an index for keys alone, and trusts the visibility map (`specs/Keys.antt`).
//! [`row_by_place`] looks for a key at a place that may be wrong, and needs no entry (`specs/ByPlace.antt`).
//!
//! Why it is built so: docs/DECISIONS.md, under its name.
#![tactic(auto)]

mod by_place;
mod conflicts;
mod index_scan;
mod key_scan;
mod lookup;
mod search;
mod table_view;
mod write_check;

pub use by_place::{row_by_place, undeleted_by_place};
pub use index_scan::{IndexPosition, IndexRange, next_row};
pub use key_scan::next_key;
pub use lookup::{place_from, place_of, row_from, row_of, seen_row};
pub use table_view::TableView;
pub use write_check::{WriteCheck, check_write};
