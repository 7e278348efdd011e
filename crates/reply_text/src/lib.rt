//! Reads the text of a reply, as `script_text` writes it.
//!
//! [`reply_at`] reads it exactly: what is read is spelled so, and what is spelled so is read (`specs/Replies.antt`). [`cut`] and [`cut_at`]
//! cut a text.
//!
//! Why it is built so: docs/DECISIONS.md, under its name.
#![tactic(auto)]

mod refusals;
mod replies;
mod rows;
mod words;

pub use replies::reply_at;
pub use words::{OutOfMemory, cut, cut_at};
