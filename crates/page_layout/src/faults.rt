//! Why bytes are no page.

use thiserror::Error;

/// What is wrong with the bytes of a page. Where several things are, the first of this list is named; of each slot its pointer is
/// looked at before its version, and of several slots the lowest is named.
#[derive(Clone, Copy, Debug, PartialEq, Eq, Error)]
pub enum PageFault {
    /// There are not 8192 bytes.
    #[error("the length is not that of a page")]
    Length,
    /// The checksum, the flags, the special space, the size and layout version or the id to prune at are not as in this layout.
    #[error("the header is not that of a page")]
    Header,
    /// `pd_lower` does not stand behind at most 291 whole pointers, or `pd_upper` not at a multiple of 8 from there to the end.
    #[error("the bounds of the gap are not those of a page")]
    Bounds,
    /// The pointer of this slot has numbers that its kind does not, or leads to no place for a version, or to no slot.
    #[error("the pointer of slot {0} leads nowhere")]
    BadPointer(u16),
    /// The bytes of the version in this slot are no version.
    #[error("the bytes of slot {0} are no version")]
    BadTuple(u16),
    /// This slot is a redirect to a slot that holds no heap-only version.
    #[error("the redirect of slot {0} leads to no heap-only version")]
    BadRedirect(u16),
    /// The version in this slot shares bytes with that of a lower slot.
    #[error("the version of slot {0} lies over that of a lower slot")]
    Overlap(u16),
}
