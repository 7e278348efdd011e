//! A plain program that computes the history that is never cleaned: it keeps the committed transactions and the open sessions as lists.
//! It looks through those of the sessions for each test, and finds what has committed by keys. It has the tests of the steps and their
//! transitions, each by itself; `judge` puts them together. Its contracts are the definitions of the crate `history`.
//!
//! Why it is built so: docs/DECISIONS.md, under its name.
#![tactic(auto)]

mod change;
mod check;
mod fetch;
mod lookup;
mod making;
mod plain;
mod refusal;
mod rows;
mod shown;
mod steps;

pub use plain::{PlainHistory, PlainIsolation, PlainSession};
pub use refusal::Refused;
