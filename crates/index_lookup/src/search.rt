//! A search along the entries of one value and one key. Nothing here takes memory.

ghost use Rattle.std.specs.Prelude.{◌≡◌, IfSome, IsTrue, MatchOption, None, Some};
ghost use Rattle.std.specs.Option.{option_map};
ghost use Rattle.index_entries.specs.Sets.{IsOf, IsLastOf};
ghost use Rattle.index_lookup.specs.Looking.{IsNextOf};

use root_index::{Entry, PositionHint, RootIndex};

/// Where a search along the entries of one value and one key has come.
#[derive(Clone, Copy)]
pub(crate) struct Search {
    /// The entry that comes next, if there is one.
    pub(crate) next: Option<Entry>,
    /// Where it was; if there is none, where the last one was, or where the first would be.
    pub(crate) near: PositionHint,
    /// True where it is known that no entry comes after that one.
    pub(crate) is_last: bool,
}

/// An entry, if it is of this value and this key.
fn entry_of_key(found: Option<Entry>, value: i128, key: u64) -> Option<Entry>
    ensures { MatchOption result ((e : Entry) → found ≡ Some e → ¬ IsOf value key e)
        (λ e. (found ≡ Some e) × IsOf value key e) }
{
    match found {
        Some(entry) if entry.value == value && entry.key == key => Some(entry),
        _ => None,
    }
}

/// An entry, if it is of this value and this key, and where it was.
fn only_of(
    found: Option<(Entry, PositionHint)>,
    value: i128,
    key: u64,
) -> Option<(Entry, PositionHint)>
    ensures { MatchOption result ((f : _) → found ≡ Some f → ¬ IsOf value key f.0)
        (λ f. (found ≡ Some f) × IsOf value key f.0) }
{
    match found {
        Some((entry, near)) if entry.value == value && entry.key == key => Some((entry, near)),
        _ => None,
    }
}

/// The first entry of this value and this key that comes after another one of these, and where it was. If the other is still at the
/// given position, no search is needed.
pub(crate) fn next_of(
    index: &RootIndex,
    value: i128,
    key: u64,
    from: Entry,
    near: PositionHint,
) -> Option<(Entry, PositionHint)>
    requires { IsOf value key from }
    ensures { IsNextOf index.now.entries value key (Some from)
        (option_map (λ found. found.0) result) }
{
    only_of(index.next_near(from, near), value, key)
}

/// Begins a search: at the first entry of this value and this key.
pub(crate) fn begin_search(index: &RootIndex, value: i128, key: u64) -> Search
    ensures next { IsNextOf index.now.entries value key None result.next }
    ensures last { IsTrue result.is_last → IfSome result.next (IsLastOf index.now.entries) }
{
    let first = index.first_from(value, key);
    Search {
        next: entry_of_key(first.found, value, key),
        near: first.near,
        is_last: first.is_last,
    }
}

/// Goes on behind this entry, at which the search is. Where that is known to be the last, the index is not looked at.
pub(crate) fn go_on(at: Search, entry: Entry, index: &RootIndex, value: i128, key: u64) -> Search
    requires of { IsOf value key entry }
    requires last { IsTrue at.is_last → IsLastOf index.now.entries entry }
    ensures next { IsNextOf index.now.entries value key (Some entry) result.next }
    ensures last { IsTrue result.is_last → IfSome result.next (IsLastOf index.now.entries) }
{
    if !at.is_last {
        if let Some((next, near)) = next_of(index, value, key, entry, at.near) {
            return Search {
                next: Some(next),
                near,
                is_last: false,
            };
        }
    }
    Search {
        next: None,
        near: at.near,
        is_last: true,
    }
}
