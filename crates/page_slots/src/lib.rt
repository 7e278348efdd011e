//! A page of the table, as its 8192 bytes.
//!
//! A page has at most 291 slots, numbered from 1; a slot is unused, holds a version, leads to another slot, or is dead (PostgreSQL
//! manual, Database Page Layout). A [`Page`] keeps the bytes of that layout in the value itself, and asks for no memory: so no change
//! of a page is refused any. Its contract sees it as the record of `specs/View.antt`: its slots, a change number, the all-visible
//! flag, and where its versions lie. It promises that a call changes nothing but what it names. It promises that [`Page::add`] takes
//! the lowest unused slot and is full exactly where the version is larger than the room. [`Page::add_row`] is for those who have
//! asked for room before. Only these two move versions, and only where the gap is too small. The change number counts changes of
//! slots, modulo 2^64, except changes of hint bits alone. What stands at a number, the room and the change number are defined in
//! `specs/Slots.antt` of `page_sheet`. Places are defined in its `specs/Placing.antt`, hints in `specs/Hints.antt` of `tuple_header`.
//! `proofs/SlotLemmas.antt` of `page_sheet` says, for the crates above, what each change does to the map from numbers to slots.
//!
//! There are two layers. A [`Sheet`](page_sheet::Sheet) knows bytes. A [`Page`] knows slots: it keeps how many bytes versions take and
//! which slot is the first unused one (`AreTallied`), so it goes through no slots for either. A version is looked at where it stands
//! ([`Page::row`]); [`Page::slot`] makes a copy. [`Page::bytes`] hands the bytes out, and [`check_page`] reads them.
//!
//! Why it is built so: docs/DECISIONS.md, under its name.
#![tactic(auto)]

mod check;
mod marks;
mod page;

pub use check::{check_page, reads_back};
pub use page::{AddFault, Page};
pub use page_layout::{PAGE_BYTES, PageFault};
pub use page_sheet::{Slot, SlotHead};
