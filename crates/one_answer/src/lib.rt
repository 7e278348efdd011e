//! What is allowed at a step is one answer, but for what the history leaves open.
#![tactic(auto)]

pub mod laws;
