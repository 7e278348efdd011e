//! The picture of a script, and its story.
//!
//! [`draw`] does the lines of a script that may have looks, up to one or all, by the functions of `script` and `viewing`. It writes the
//! picture of the table as it is then. Its contract says which lines were read and done, and that what was written is the text of a
//! picture (`shapes`) of the table behind them. Else it says why nothing was written (`specs/DrawOutcomes.antt`).
//!
//! [`tell_story`] writes a page of HTML: the lines with their answers, and for each what a read of it finds, in sentences, and the picture
//! of the table behind it. Its contract says besides that each explanation is that of the line's session and key before the line, and
//! that all this was written, or nothing (`specs/Outcomes.antt`, `specs/Telling.antt`).
//!
//! Why it is built so: docs/DECISIONS.md, under its name.
#![tactic(auto)]

mod beginning;
mod draw_fault;
mod drawing;
mod explaining;
mod fault;
mod lines;
mod page;
mod story;
mod telling;

pub use draw_fault::{DrawFault, fault_of, no_memory};
pub use drawing::draw;
pub use fault::StoryFault;
pub use lines::next_of;
pub use script::{IoLog, ShellFault};
pub use story::{MOST_LINES, tell_story};
