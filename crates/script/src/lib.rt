//! The run of a script: its lines are read, done and answered. And a page, which is read and looked into.
//!
//! The contract of [`run_script`] speaks of any reader whose bytes are known, and any writer that tells what it holds. The lines read are
//! of the grammar (`script_text`). The replies to their steps are a run of the history, and come from an engine made by the first line's
//! settings. Exactly their text was written (`specs/Script.antt`). After a fault it says which part of this holds, and that the [`IoLog`]
//! had noted what was refused (`specs/Refusals.antt`). [`command_of`] of `script_text` says what the program's words ask for.
//! [`inspect_script`] reads a page and writes what its bytes say (`specs/Inspected.antt`, `specs/PageText.antt`). The parts of a run,
//! from [`next_line`] on, are public for a run of a further language.
//!
//! Why it is built so: docs/DECISIONS.md, under its name.
#![tactic(auto)]

mod fault;
mod finish;
mod input;
mod inspect;
mod io_log;
mod output;
mod page_bytes;
mod page_text;
mod page_words;
mod run;
mod threads;

pub use fault::ShellFault;
pub use input::Pending;
pub use io_log::IoLog;
pub use page_bytes::inspect_script;
pub use run::{FULL, Front, close, do_line, first_line, next_line, run_script, write_if_full};
pub use script_text::{Command, USAGE, command_of};
pub use threads::threads_script;
