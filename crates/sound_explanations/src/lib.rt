//! Explanations of a key, through sound entries: they show as seen exactly what a reader finds of it (`specs/Showing.antt`).
#![tactic(auto)]

pub mod laws;
