//! The history that is never cleaned: what committed transactions wrote, what an open session reads, and the laws of
//! every run. The definitions are in specs/; docs/history.md tells them in prose. The crate `plain_history` computes them.
//!
//! Why it is built so: docs/DECISIONS.md, under its name.
#![tactic(auto)]

pub mod laws;
