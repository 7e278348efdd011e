//! The engine, with a judge of what it answers.
//!
//! That the history allows each reply of the engine is proved (`session_core`), and that the judge allows exactly such replies
//! (`judge`). Here the judge is told what the compiled engine replies to each step, and what its sessions read. What the history
//! leaves to an engine is compared with the engine's pages and ids, and of a vacuum, of which the history knows nothing, with
//! whether one runs. So is every id that is given. What is noted of pages and in indexes is looked at after each step of a vacuum.
//!
//! Why it is built so: docs/DECISIONS.md, under its name.
#![tactic(auto)]

mod cuts;
mod hindrance;
mod levels;
mod look;
mod making;
mod pair;
mod vacuum;
mod written;

pub use pair::{Difference, Pair, Standing, Views};
