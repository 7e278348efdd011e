//! Why bytes are no version.

use thiserror::Error;

/// What is wrong with the bytes of a version. Where several things are, the first of this list is named.
#[derive(Clone, Copy, Debug, PartialEq, Eq, Error)]
pub enum TupleFault {
    /// There are fewer than 66 bytes, the body's length is over 1024, or there are not 66 bytes and that many more.
    #[error("the length is not that of a version")]
    Length,
    /// Byte 22, the header's length, is not 24.
    #[error("the header's length is not 24")]
    Hoff,
    /// The command id is not 0.
    #[error("the command id is not 0")]
    Cid,
    /// Byte 23 is not 0.
    #[error("the padding is not 0")]
    Padding,
    /// The number of attributes, the low 11 bits of `mask2`, is not 6.
    #[error("there are not 6 attributes")]
    Attributes,
    /// A bit that has no meaning is set, or `XMAX_COMMITTED` and `XMAX_INVALID` are both.
    #[error("the marks do not go together")]
    Masks,
    /// The inserter is below 3.
    #[error("the inserting id is not normal")]
    Xmin,
    /// The deleter is 1 or 2, or it is 0 without `XMAX_INVALID` or with `HOT_UPDATED`.
    #[error("the deleting id is not as its marks say")]
    Xmax,
    /// The slot is 0 or over 291.
    #[error("there is no such slot")]
    Ctid,
}
