//! The entries of a key.

ghost use Rattle.std.specs.Prelude.{◌≡◌, pos, IfSome, MatchOption};
ghost use Rattle.std.specs.Option.{option_map};
ghost use Rattle.index_entries.specs.Sets.{IsOf};
ghost use Rattle.index_lookup.specs.Looking.{IsNextOf};
ghost use Rattle.explanations.specs.Shown.{entry_to, IsNextPlace};

use root_index::{Entry, RootIndex};
use xid_circle::Tid;

/// An entry, if it is of this value and this key.
fn entry_of_key(found: Option<Entry>, value: i128, key: u64) -> Option<Entry>
    ensures { MatchOption result ((e : Entry) → found ≡ Some e → ¬ IsOf value key e)
        (λ e. (found ≡ Some e) × IsOf value key e) }
{
    match found {
        Some(entry) if entry.value == value && entry.key == key => Some(entry),
        _ => None,
    }
}

/// The next entry of this value and this key: the first after another one of these, still there or not, or the first of all.
fn next_entry(index: &RootIndex, value: i128, key: u64, after: Option<Entry>) -> Option<Entry>
    requires { IfSome after (IsOf value key) }
    ensures { IsNextOf index.now.entries value key after result }
{
    match after {
        Some(from) => entry_of_key(index.next_after(Some(from)), value, key),
        None => entry_of_key(index.first_from(value, key).found, value, key),
    }
}

/// The entry by key that leads to a place.
fn entry_to(key: u64, place: Option<Tid>) -> Option<Entry>
    ensures value { result ≡ option_map (entry_to key) place }
    ensures of { IfSome result (IsOf (pos key) key) }
{
    match place {
        Some(tid) => Some(Entry {
            value: i128::from(key),
            key,
            tid,
        }),
        None => None,
    }
}

/// The place to which an entry leads.
fn place_of(entry: Option<Entry>) -> Option<Tid>
    ensures { result ≡ option_map (λ (e : Entry). e.tid) entry }
{
    match entry {
        Some(entry) => Some(entry.tid),
        None => None,
    }
}

/// The place to which the next entry of the key leads, in an index by key. That entry is the first after the entry that leads to
/// a place, still there or not, or the first of all. It takes no memory.
pub fn next_place(index: &RootIndex, key: u64, after: Option<Tid>) -> Option<Tid>
    ensures { IsNextPlace index.now.entries key after result }
{
    let from = entry_to(key, after);
    place_of(next_entry(index, i128::from(key), key, from))
}
