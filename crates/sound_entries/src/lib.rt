//! Sound entries: what an index promises of the chains that it leads to.
//!
//! An entry leads to the root of a chain, and each version of the chain has the entry's value and key. So an update that stays in
//! the chain needs no entry (README.HOT; the manual's "Heap-Only Tuples"). An index may be exact from an id on alone, as one is
//! that is made in use. What was dead at that id is excused, and need not be found. `specs/Entries.antt` says when the entries of
//! a table are sound, for an index on any function of a row. It also says what a step may do to the slot that an entry leads to.
//! The laws of `specs/Laws.antt` are contracts of functions that do nothing. They say that by sound entries one finds what is
//! found on the heap. They also say that writes, pruning, and what becomes of transactions leave the entries sound.
#![tactic(auto)]

pub mod laws;
