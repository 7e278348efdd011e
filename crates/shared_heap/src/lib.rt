//! An engine that threads share, with the journal of all its calls.
//!
//! A [`Book`] is an engine with its journal: whatever was called, the journal is a run of the history, and the engine is at its end
//! (`specs/Books.antt`). A [`Shared`] is a book under a latch, for threads that call as they like. [`run_threads`] has workers do lists
//! of steps, each in a thread, and its book's journal is a merge of the lists (`specs/Merge.antt`). That threads run, and that a wait
//! ends, is promised by no contract.
//!
//! Why it is built so: docs/DECISIONS.md, under its name.
#![tactic(auto)]

mod book;
mod copies;
mod gated;
mod line;
mod request;
mod shared;
mod work;

pub use book::Book;
pub use copies::{Spare, copy_reply, spare_for};
pub use gated::{Gate, run_gated, run_threads};
pub use line::WorkerLine as Line;
pub use session_core::RunFault;
pub use shared::Shared;
