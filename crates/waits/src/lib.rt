//! For whom each session waits, and whether one more wait would close a ring.
//!
//! Why it is built so: docs/DECISIONS.md, under its name.
#![tactic(auto)]

mod ring;
mod waits;

pub use ring::closes_ring;
pub use waits::{Waits, wake_all};
