//! A table: its pages, the status of its ids and its indexes, and writes on them.
//!
//! A write either is done, with an id for each level of its session, or is refused for the first of its reasons. A refused write
//! changes nothing, except that an update that ends in NoRoom may have pruned the page of the old version. `specs/Writes.antt` says
//! what each write does, and `specs/Refusals.antt` why one is refused; what a write does in an index is said in `table_indexes`.
//! Whatever has to grow is grown before the first change, so that nothing is left half done (`specs/Growth.antt`). A cursor goes
//! along any index. All other steps look for a key, where a root of it was put last or by the index by key.
//!
//! Each page that was looked through has a prune hint: from when on a version on it may be dead, and in which slots. An update of a
//! full page looks for dead versions only when and where there may be some. No answer depends on hints, and that they are true is
//! part of the type (`specs/Hints.antt`).
//!
//! Where a root of each key was made last is noted too, as far as there is memory. A get, an update and a delete look there first. The
//! notes may say anything, and no answer depends on them (`src/places.rt`).
//!
//! A vacuum prunes, freezes and notes pages, removes entries and makes dead slots unused (`specs/Cleaning.antt`). These calls don't
//! ask whether that is safe: `sound_vacuum` says when it is.
//!
//! An index by a column can be made while the table is in use (`specs/Making.antt`). It has the current rows alone, and is exact from
//! the next id on.
//!
//! Why it is built so: docs/DECISIONS.md, under its name.
#![tactic(auto)]

mod applying;
mod cleaning;
mod delete;
mod full_page;
mod heap;
mod hints;
mod insert;
mod lookup;
mod making;
mod places;
mod pruning;
mod target;
mod update;
mod visiting;

pub use applying::ApplyFault;
pub use heap::{Answer, HeapState, WriteFault};
pub use index_lookup::{IndexPosition, IndexRange};
pub use pruning::PruneFault;
