//! Places for rows.

use crate::version::{COLUMNS, MOST_BODY};

/// A place for a row that its caller keeps, as C has it. It has the row's key, its columns 0 to 3, and a body, of which
/// the first `length` bytes count.
#[repr(C)]
#[derive(Drop)]
pub struct RowPlace {
    pub key: u64,
    pub cols: [i64; COLUMNS],
    pub length: u16,
    pub body: [u8; MOST_BODY],
}
