//! Scans of a table: the next rows that a reader sees, along an index or over the heap; and the rows of a page, to be read later.
//!
//! A [`Scan`] is the rest of one. [`take_next`] makes a list of the next rows, and [`take_keys`] of the next keys, where keys alone
//! are asked for. [`put_next`] writes either to places of the caller's; all three say what is left behind them. A scan changes
//! nothing, and knows nothing of sessions. `specs/Scans.antt` says which rows it meets, step by step: along an index the next of
//! the range, over the heap slot by slot; `specs/Keys.antt` says which keys. `specs/Takes.antt` says how many are handed out at
//! once. Their meaning for a session follows above, from what the table keeps.
//!
//! A [`Ticket`] is made where nothing is written meanwhile. It holds the page as it is then, and which of its versions a reader sees.
//! [`resolve`] gives their rows at any time after that. It is handed no table, so nothing that was done since can matter
//! (`specs/Tickets.antt`). [`read_rows`] gives those of a page at once, where it stands.
//!
//! Why it is built so: docs/DECISIONS.md, under its name.
#![tactic(auto)]

mod keys;
mod progress;
mod putting;
mod seeing;
mod taking;
mod ticket;

pub use keys::take_keys;
pub use progress::{CursorScan, KeyRange, Scan, start_of};
pub use putting::put_next;
pub use taking::{no_row, take_next};
pub use ticket::{Ticket, read_rows, resolve};
