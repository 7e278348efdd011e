//! The language of looks: lines that are no steps, and their answers.
//!
//! [`look_at`] reads a line exactly as `specs/Looks.antt` spells it: what is read is spelled so, and what is spelled so is read. The
//! functions `tell_..` add the lines of an answer to a text (`specs/Answers.antt`), from what an engine has told. All other lines are
//! those of `script_text`, whose readers of words and whose growths this crate uses.
//!
//! Why it is built so: docs/DECISIONS.md, under its name.
#![tactic(auto)]

mod cleaning;
mod look;
mod session;
mod versions;

pub use cleaning::{FateLook, tell_fate, tell_horizon, tell_plan, tell_vacuum};
pub use look::{Look, look_at};
pub use session::tell_session;
pub use versions::{EntryLook, VersionLook, tell_explanation};
