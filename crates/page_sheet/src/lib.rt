//! The bytes of a page that keep what is promised of them, and what stands in its slots.
//!
//! A [`Sheet`] is the 8192 bytes of a page (PostgreSQL manual, Database Page Layout) and how many slots it has. It keeps what
//! `Sound` of `page_layout` says of them, and its contract names them. What slots the bytes say is defined in `specs/Layout.antt`,
//! what stands at a number, the room and the change number in `specs/Slots.antt`. `proofs/SlotLemmas.antt` says, for the crates above,
//! what each change does to the map from numbers to slots.
//!
//! A version is written into the gap between pointers and versions ([`Sheet::add`], [`Sheet::push`]). Where the gap is too small,
//! versions are moved together first, from the end of the page downward in the order of their slots (`packing.rt`,
//! `specs/Packing.antt`, `specs/Placing.antt`). A `Sheet` keeps how they lie, as far as that is known (`lying.rt`,
//! `specs/Lying.antt`), so most often none is looked at for it. It asks for no memory, and refuses nothing: what it is handed has to
//! be in range.
//!
//! Why it is built so: docs/DECISIONS.md, under its name.
#![tactic(auto)]

mod lying;
mod packing;
mod sheet;
mod slot;

pub use sheet::{MOST_BYTES, Sheet};
pub use slot::{Slot, SlotHead};
