//! What a plan does to a slot of a page. It stands alone, below all that plans and below the words of a call.
#![tactic(auto)]

/// What is done to a slot.
#[derive(Clone, Copy, Debug, Default, PartialEq, Eq)]
pub enum Action {
    /// It becomes unused.
    #[default]
    Unuse,
    /// It becomes dead: it holds nothing, but keeps its number while index entries lead to it.
    Kill,
    /// It leads to the slot of this number.
    Redirect(u16),
}
