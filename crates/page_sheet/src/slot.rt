//! What stands in a slot.

use tuple_header::{Header, Tuple};

/// A slot of a page.
#[derive(Debug, Drop)]
pub enum Slot {
    /// Free for the next version.
    Unused,
    /// A version of a row.
    Normal(Tuple),
    /// Leads to the slot of this number on the same page.
    Redirect(u16),
    /// Holds nothing, but keeps its number while index entries lead to it.
    Dead,
}

/// What a slot tells without its row.
#[derive(Clone, Copy, Debug)]
pub enum SlotHead {
    /// The header of its version.
    Version(Header),
    /// Where it leads.
    Redirect(u16),
    /// That it holds nothing, and leads nowhere.
    Empty,
}
