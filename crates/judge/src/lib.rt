//! A judge of answers: is what an engine answered to a step allowed by the history?
//!
//! Why it is built so: docs/DECISIONS.md, under its name.
#![tactic(auto)]

mod all;
mod compare;
mod due;
mod expect;
mod handing;
mod judge;
pub mod laws;
mod why;

pub use all::judge_all;
pub use due::Due;
pub use following::NoMemory;
pub use judge::{Judge, Ruling};
pub use why::{Rule, Why};
