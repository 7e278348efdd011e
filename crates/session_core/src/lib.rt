//! The engine: sessions that read and write a table, step by step, while it is vacuumed.
//!
//! An [`Engine`] keeps the engine of `session_steps`, whose state the steps of sessions change, and beside it the vacuum that is
//! running and the waits of sessions for each other. Callers see it as a `WaitingView` (`specs/State.antt`). For every world of the
//! history that it agrees with, [`Engine::step`] gives a reply that the history allows, and agrees with the world after it
//! (`WaitingFollows`). To ids, pages, the vacuum and the waits it does exactly what `WaitingExact` says. [`run`] does a list of
//! steps (`specs/Runs.antt`).
//!
//! The engine below knows no waits, and agrees with worlds in which any do. So what it answers is right here too, but for Busy. That
//! begins a wait, or is a Deadlock where the wait would close a ring.
//!
//! Why it is built so: docs/DECISIONS.md, under its name.
#![tactic(auto)]

mod counts;
mod direct;
mod engine;
mod looks;
mod making;
mod runs;
mod statuses;
mod vacuuming;
mod views;
mod waiting;

pub use calls::{
    Action, Mode, Piece, PlanIn, Refusal, Reply, Row, RowIn, Settings, SettingsFault, Step,
};
pub use commit_status::Status;
pub use engine::Engine;
pub use page_slots::Page;
pub use runs::{RunFault, run};
pub use session_looks::{Hold, HorizonHolder, PrunePlan, ShownVersion, SlotFate};
pub use session_steps::{Ack, Session, SessionIsolation};
pub use tuple_header::RowPlace;
pub use xid_circle::Xid;
