//! Where the parts of a page stand among its bytes (PostgreSQL manual, Database Page Layout), and what can be wrong there.
//!
//! This crate knows bytes alone: the numbers of a page's header, its line pointers, and the bytes to which they lead. What a slot
//! shows of them, and all that changes slots, is in `page_slots` above, which is also what callers use. `specs/Layout.antt` says
//! where each part stands, `specs/Sound.antt` what the bytes of a page keep. `specs/Faults.antt` says which fault of the header,
//! of a pointer or of a version's bytes is named. `specs/Raising.antt` says how pointers follow versions that are moved up at
//! once. `proofs/Frames.antt` says, for the crate above, what a write leaves of the other parts.
//!
//! Why it is built so: docs/DECISIONS.md, under its name.
#![tactic(auto)]

mod check;
mod faults;
mod numbers;
mod parts;
mod pointer;
mod raising;
mod sizes;
mod units;

pub use check::{count_of, first_slot_fault_of, frame_fault_of};
pub use faults::PageFault;
pub use numbers::{put_u16, put_u64, u16_at, u32_at, u64_at};
pub use parts::{part, put_bytes, slide};
pub use pointer::{Extent, Pointer, pointer_at, put_pointer};
pub use raising::{end_in, raise_pointers};
pub use sizes::{PAGE_BYTES, PAGE_HEADER_BYTES};
pub use units::{PAGE_UNITS, mark};
