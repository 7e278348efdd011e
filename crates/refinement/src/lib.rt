//! Which replies are right, and what it is for an engine to agree with the history.
//!
//! The words are those of `calls`: settings, steps, replies. `specs/Allowed.antt` says which replies the history allows
//! to a step, and what the world is after each. `specs/Agrees.antt` says when an engine, as its readers see it,
//! agrees with a world; `proofs/` has what each kind of step does to that agreement.
//!
//! Why it is built so: docs/DECISIONS.md, under its name.
#![tactic(auto)]

pub mod laws;
