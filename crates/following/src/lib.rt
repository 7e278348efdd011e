//! The history goes on by an answer that it allows, whichever that is.
#![tactic(auto)]

mod steps;

pub use steps::{NoMemory, follow};
