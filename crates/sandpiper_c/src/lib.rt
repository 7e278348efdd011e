//! The engine for programs in C, and in whatever calls C.
//!
//! C keeps a [`c_handles::Sandpiper`], whose pointer owns an engine that C never sees. Each export does one step on that engine
//! and says again what [`session_core::Engine::step`] says of it (`specs/Calls.antt`), or asks it a look (`specs/Looks.antt`). No export
//! requires anything: a handle without an engine refuses each step. What a call answers is a [`c_handles::CallStatus`], of which C has the
//! number. Most exports are one call, since C needs a name for each step. A function "for the engine" speaks of that alone, and its
//! export of the handle.
//!
//! Why it is built so: docs/DECISIONS.md, under its name.
#![tactic(auto)]

mod bytes;
mod cursors;
mod looks;
mod many;
mod opening;
mod pages;
mod picture;
mod places;
mod plans;
mod rows;
mod state;
mod steps;
mod taking;
mod vacuum;
mod version;
mod writes;
