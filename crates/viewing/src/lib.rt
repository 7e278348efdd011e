//! The run of a script with looks: its lines are read, done and answered as `script` does it, and the looks among them are answered by
//! what the engine holds.
//!
//! The contract of [`run_views`] speaks of any reader whose bytes are known, and any writer that tells what it holds. The lines read are
//! lines of a script, or looks. Those that are no looks are a run of a script, as if no look stood between them. Each look's answer is
//! what the engine holds then (`specs/Showing.antt`). Exactly the text of all this was written, as a journal or not
//! (`specs/Viewing.antt`). A line is bad exactly where neither language has it. [`talk`] reads from somebody who types: it asks for each
//! line, and goes on after a wrong one.
//!
//! Why it is built so: docs/DECISIONS.md, under its name.
#![tactic(auto)]

mod explaining;
mod help;
mod looks;
mod run;
mod talking;

pub use explaining::explanation;
pub use run::{do_view, run_views};
pub use script::{IoLog, ShellFault};
pub use talking::talk;
