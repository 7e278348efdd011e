//! Which versions a reader sees, and which nobody can see any more.
//!
//! A [`Reader`] is a snapshot, ids of its owner's own, and the table of what became of ids. The contract promises that
//! [`Reader::sees`] and [`fate`] answer exactly what `specs/Visible.antt` defines, which reads no hint, and that [`set_hints`]
//! notes only what is true (`specs/Hints.antt`). The laws (`specs/Laws.antt`) say that no reader from the horizon on sees a dead
//! version. They also say that no verdict changes by hints, when an id is given, or when ids finish that the reader neither owns
//! nor sees.
//!
//! Why it is built so: docs/DECISIONS.md, under its name.
#![tactic(auto)]

mod fates;
mod hints;
pub mod laws;
mod reader;
mod verdict;

pub use fates::{fate, fate_of};
pub use hints::{hints_change_no_verdict, set_hints};
pub use reader::Reader;
pub use verdict::Fate;
