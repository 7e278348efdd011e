//! A vacuum, step by step.
//!
//! A [`Vacuum`] in progress says what it does next. It visits the pages of a table one after another. Once it has collected as many dead
//! slots as it can hold, or has come to the last page, it goes through the indexes piece by piece. Then it makes these slots unused.
//! (The manual's "Routine Vacuuming"; src/backend/access/heap/vacuumlazy.c. That it does one piece at a time is this project's.)
//!
//! The functions of [`laws`] do nothing; their contracts say what each step keeps ([`laws::steps_keep_vacuum`]) and how many steps there
//! are while no others come between ([`laws::steps_stay_within`]).
//!
//! Why it is built so: docs/DECISIONS.md, under its name.
#![tactic(auto)]

mod freeing;
pub mod laws;
mod step;
mod sweeping;
mod vacuum;
mod visiting;

pub use calls::{Mode, Piece};
pub use vacuum::{Phase, Vacuum};
