//! What a picture of the table shows, as a list of shapes.
//!
//! [`picture`] looks at an engine by its public calls alone, and makes the list. It has the ids that are remembered, the horizon, the next
//! id, and the open sessions. Of each page that is asked for it has the slots, their links, and the entries that lead there. Beside each
//! version it has a dot for each open session, filled where the session sees the version. `specs/Shapes.antt` defines what is in the list:
//! each thing once, in this order, and nothing else. What a shape looks like, and where it is drawn, is not said here.
//!
//! [`draw_asked`] adds to a text the picture of the pages that were asked for, or of all where none was: these shapes, as `svg_text` spells
//! them (`specs/Pictures.antt`). Programs draw by it, and so does the library for C.
//!
//! Why it is built so: docs/DECISIONS.md, under its name.
#![tactic(auto)]

mod dots;
mod entries;
mod fault;
mod ids;
mod links;
mod making;
mod open_sessions;
mod pages;
mod slots;
mod text;

pub use fault::{MOST_IDS, MOST_PAGES, PictureFault};
pub use making::picture;
pub use shape_list::Shape;
pub use text::{draw_all, draw_asked};
