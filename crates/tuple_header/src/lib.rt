//! A version of a row: its header, its row, and their bytes.
//!
//! The bytes are a header of 24 and a row of 42 and its body, each number with its low byte first. `specs/Layout.antt`
//! says which field stands where (the header is that of PostgreSQL's manual, Database Page Layout). The contract promises
//! two things of [`decode`]. It reads a version exactly from the bytes that [`encode`] writes of it. For all other bytes
//! it names the first fault in the order of `specs/Faults.antt`. [`reads_back`] is the law that each version is read from
//! its own bytes. A [`Tuple`] always has a header without a fault. What the marks of a header say stands in
//! `specs/Marks.antt`.
#![tactic(auto)]

mod decoding;
mod encoding;
mod fault;
mod hints;
mod row_place;
mod row_ref;
mod version;

pub use decoding::{decode, fault_of, header_of, key_of, row_in, version_of};
pub use encoding::{encode, put_header, put_version, reads_back};
pub use fault::TupleFault;
pub use hints::differ_in_hints_alone;
pub use row_place::RowPlace;
pub use row_ref::RowRef;
pub use version::{
    BODY_START, COLUMNS, Header, MOST_BODY, MOST_SLOT_NUMBERS, MOST_SLOTS, Row, Tuple, row_size,
    size,
};
