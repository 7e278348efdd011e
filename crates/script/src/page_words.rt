//! The words for what is wrong with a page.

use page_slots::PageFault;
use std::fmt;

/// A fault of a page, shown by its name and the slot, where it has one.
#[derive(Drop)]
pub(crate) struct PageWords(pub(crate) PageFault);

impl fmt::Display for PageWords {
    fn fmt<W: fmt::Write>(&self, f: &mut fmt::Formatter<W>) -> fmt::Result {
        match self.0 {
            PageFault::Length => write!(f, "Length"),
            PageFault::Header => write!(f, "Header"),
            PageFault::Bounds => write!(f, "Bounds"),
            PageFault::BadPointer(slot) => write!(f, "BadPointer {slot}"),
            PageFault::BadTuple(slot) => write!(f, "BadTuple {slot}"),
            PageFault::BadRedirect(slot) => write!(f, "BadRedirect {slot}"),
            PageFault::Overlap(slot) => write!(f, "Overlap {slot}"),
        }
    }
}
