//! Judges a transcript: is each answer in it allowed by the history?
//!
//! A transcript has a script's first line, and behind it exchanges: a prompt and a line, and the lines of its answer up to the next
//! prompt. [`judge_transcript`] reads one and says whether all its answers are allowed, or tells which are not, and why. Its contract ties
//! that to the text that was read and to the history's runs (`specs/Transcripts.antt`).
//!
//! Why it is built so: docs/DECISIONS.md, under its name.
#![tactic(auto)]

mod begins;
mod cutting;
mod exchanges;
mod failures;
mod fault;
mod question;
mod ruling;
mod showing;
mod telling;
mod transcripts;

pub use begins::{Begins, Until};
pub use failures::FailureLog;
pub use fault::Fault;
pub use transcripts::judge_transcript;
