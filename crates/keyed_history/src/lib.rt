//! What has committed, by keys: the transactions as a list, and beside it where each key was written. So what was read of a key after so
//! many commits is found without looking through them.
//!
//! Why it is built so: docs/DECISIONS.md, under its name.
#![tactic(auto)]

mod kept;
mod keyed;
mod noting;
mod spots;
mod write;

pub use kept::KeptRow;
pub use keyed::KeyedHistory;
pub use write::{PlainLevel, PlainWrite};
