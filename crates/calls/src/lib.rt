//! What a caller says and is told: the words of the table.
//!
//! [`Settings`] make an engine, a [`Step`] is one call, a [`Reply`] its answer. `specs/` has what is said of them alone.
//! `Words` says which settings are in range, `Steps` whose a step is, `Writes` which steps write a key, `Bars` what bars
//! a session from a step. Which reply is allowed to a step is `refinement`'s to say.
//!
//! Why it is built so: docs/DECISIONS.md, under its name.
#![tactic(auto)]

mod checked;
mod reply;
mod settings;
mod step;
mod vacuum;

pub use checked::CheckedSettings;
pub use prune_actions::Action;
pub use reply::{Refusal, Reply};
pub use settings::{Settings, SettingsFault};
pub use step::{MOST_SESSIONS, PlanIn, RowIn, Step, fill_row};
pub use tuple_header::Row;
pub use vacuum::{Mode, Piece};
