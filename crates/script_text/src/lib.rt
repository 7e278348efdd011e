//! The language of the shell's scripts: lines to steps, replies to text.
//!
//! [`settings_at`] reads a script's first line and [`line_at`] any other, each exactly as `specs/Grammar.antt` spells it: what is
//! read is spelled so, and what is spelled so is read. The functions `tell_..` add the lines of an answer to a text
//! (`specs/Answers.antt`). Each of them gives up only with a [`RefusedGrowth`], which only the refusal of a growth makes.
//! [`command_of`] says which words of the command line ask for a script. The readers of words and the functions that add parts of
//! a line are public for further languages, which share their growths.
//!
//! Why it is built so: docs/DECISIONS.md, under its name.
#![tactic(auto)]

mod answer;
mod command;
mod entries;
mod growth;
mod heading;
mod line;
mod page;
mod plan;
mod step;
mod words;
mod worker_step;

pub use answer::{hex, put_unsigned, tell_reply};
pub use command::{Command, USAGE, command_of};
pub use entries::{tell_index, tell_no_index};
pub use growth::{RefusedGrowth, buffer, copy_numbers, extend, push, push_item};
pub use heading::settings_at;
pub use line::{Line, MOST_LINE_BYTES, line_at};
pub use page::{label, slot, spaced_number, tell_ids, tell_no_page, tell_page};
pub use plan::put_actions;
pub use step::tell_step;
pub use words::{cut, number, number_then};
pub use worker_step::{WorkerStep, worker_step_at};
