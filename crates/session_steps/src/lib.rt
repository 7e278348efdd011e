//! The steps of the engine: sessions that read and write a table.
//!
//! The crate above keeps beside this the vacuum that is running. It sees a [`SessionEngine`] as a `State` (`specs/State.antt`).
//! `specs/Agrees.antt` says when it agrees with a world of the history. [`SessionEngine::step_into`] promises this for every world that it
//! agrees with: the history allows the reply, and the engine agrees with the next world. No index entry leads to a slot that was given to
//! another row. Beside that it says exactly what the step does to ids and pages (`specs/Exact.antt`). It passes over a vacuum's steps.
//!
//! [`SessionEngine::forget`] are what a vacuum asks of it (`specs/Vacuums.antt`). [`laws::views_by_index`] says what an index leads to,
//! and [`laws::horizon_is_earliest`] what the horizon is.
//!
//! Why it is built so: docs/DECISIONS.md, under its name.
#![tactic(auto)]

mod begin;
mod checks;
mod commit;
mod cursors;
mod engine;
mod get;
pub mod laws;
mod making;
mod next;
mod outcome;
mod pruning;
mod reader;
mod savepoint;
mod sharing;
mod step;
mod vacuuming;
mod writes;

pub use calls::{Refusal, Reply, Row, RowIn, Settings, SettingsFault, Step};
pub use engine::SessionEngine;
pub use outcome::Ack;
pub use page_slots::Page;
pub use sessions::{Session, SessionIsolation};
