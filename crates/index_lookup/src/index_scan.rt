//! How a cursor goes on along an index, from place to place. Nothing here takes memory.

ghost use Rattle.std.specs.Prelude.{◌≡◌, ◌↔◌, ◌≤◌, ◌≤ℤ◌, IsTrue, FitsSigned};
ghost use Rattle.std.specs.Int.{w128};
ghost use Rattle.std.specs.Option.{option_map};
ghost use Rattle.index_entries.specs.Sets.{IsLeast, IsBelow, IsOf};
ghost use Rattle.index_lookup.specs.Pages.{page_slots_of};
ghost use Rattle.visibility.specs.Reading.{IsSeenBy};
ghost use Rattle.index_lookup.specs.Walking.{ComesAfter, last_at, StartsIn, LiesIn, NextRow};

use crate::lookup::{row_from, with_hint};
use crate::table_view::TableView;
use root_index::{Entry, PositionHint, RootIndex};
use tuple_header::RowRef;
use visibility::Reader;
use xid_circle::Tid;

/// A place in the order of an index: that of a row with this value and key.
#[derive(Clone, Copy, Debug, PartialEq, Eq)]
pub struct IndexPosition {
    /// The row's value in the index.
    pub value: i128,
    /// The row's key.
    pub key: u64,
    /// The root to which the entry of this value and key leads. Nothing but the search that it spares depends on it.
    pub tid: Tid,
    /// Where that entry was, which is a hint as well.
    pub near: PositionHint,
}

/// Part of an index: what lies between two values, both included, and after a place of its order, if one is given.
#[derive(Clone, Copy, Debug, PartialEq, Eq)]
pub struct IndexRange {
    /// The index's number: 0 is that by key, and c + 1 that by column c.
    pub index: u8,
    /// The least value of the span.
    pub low: i128,
    /// The greatest; one below `low` makes the span empty.
    pub high: i128,
    /// Only entries after this place are meant; where there is none, all.
    pub last: Option<IndexPosition>,
}

impl IndexRange {
    fn low(&self) -> i128
        ensures value { result ≡ self.now.low }
        ensures fits { FitsSigned w128 result }
    {
        self.low
    }

    /// True where this place of the order is not below the low value.
    fn begins_by(&self, position: &IndexPosition) -> bool
        ensures { IsTrue result ↔ (self.now.low ≤ℤ position.now.value) }
    {
        self.low <= position.value
    }

    /// True where the entry's value is not above the high value.
    fn reaches(&self, entry: &Entry) -> bool
        ensures { IsTrue result ↔ (entry.now.value ≤ℤ self.now.high) }
    {
        entry.value <= self.high
    }
}

/// The numbers of an entry's place are in range. It does nothing; its contract is the fact.
fn fact_place(entry: &Entry)
    ensures page { entry.now.tid.page ≤ 4294967295 }
    ensures slot { entry.now.tid.slot ≤ 65535 }
{
    let _page = entry.tid.page;
    let _slot = entry.tid.slot;
}

/// The last entry that there can be at a place of the order.
fn last_at(position: &IndexPosition) -> Entry
    ensures { result ≡ last_at position.now }
{
    Entry {
        value: position.value,
        key: position.key,
        tid: Tid {
            page: u32::MAX,
            slot: u16::MAX,
        },
    }
}

/// The entry at a place of the order, by the root that it leads to.
fn entry_of(position: &IndexPosition) -> Entry
    ensures value { result.value ≡ position.now.value }
    ensures key { result.key ≡ position.now.key }
{
    Entry {
        value: position.value,
        key: position.key,
        tid: position.tid,
    }
}

/// True where the entry is at this place of the order.
fn is_at(entry: &Entry, position: &IndexPosition) -> bool
    ensures { IsTrue result ↔ IsOf position.now.value position.now.key entry.now }
{
    entry.value == position.value && entry.key == position.key
}

/// The first entry that comes after a place of the order, and where it was.
#[inline(always)]
fn after_position(index: &RootIndex, position: &IndexPosition) -> Option<(Entry, PositionHint)>
    ensures { IsLeast index.now.entries (λ e. ComesAfter e (Some position.now))
        (option_map (λ found. found.0) result) }
{
    let (entry, near) = index.next_near(entry_of(position), position.near)?;
    if !is_at(&entry, position) {
        return Some((entry, near));
    }
    // one more entry of this value and this key
    past_all(index, position, near)
}

/// The first entry that comes after all that there can be at a place of the order, and where it was.
fn past_all(
    index: &RootIndex,
    position: &IndexPosition,
    near: PositionHint,
) -> Option<(Entry, PositionHint)>
    ensures { IsLeast index.now.entries (λ e. ComesAfter e (Some position.now))
        (option_map (λ found. found.0) result) }
{
    let (entry, near) = index.next_near(last_at(position), near)?;
    fact_place(&entry);
    Some((entry, near))
}

/// The first entry that is not below the span's low value, and where it was.
#[inline(always)]
fn from_low(index: &RootIndex, span: &IndexRange) -> Option<(Entry, PositionHint)>
    ensures { IsLeast index.now.entries (λ e. ¬ IsBelow span.now.low 0 e)
        (option_map (λ found. found.0) result) }
{
    with_hint(index.first_from(span.low(), 0))
}

/// The first entry that is not below the span's low value, and comes after its last place, and where it was.
#[inline(always)]
fn entry_from(index: &RootIndex, span: &IndexRange) -> Option<(Entry, PositionHint)>
    ensures { IsLeast index.now.entries (StartsIn span.now) (option_map (λ found. found.0) result) }
{
    match &span.last {
        Some(last) if span.begins_by(last) => after_position(index, last),
        _ => from_low(index, span),
    }
}

/// The first entry of the span, and where it was.
#[inline(always)]
pub(crate) fn entry_in(index: &RootIndex, span: &IndexRange) -> Option<(Entry, PositionHint)>
    ensures { IsLeast index.now.entries (LiesIn span.now) (option_map (λ found. found.0) result) }
{
    match entry_from(index, span) {
        Some((entry, near)) if span.reaches(&entry) => Some((entry, near)),
        _ => None,
    }
}

/// The place of an entry in the order of its index.
pub(crate) fn position_of(entry: &Entry, near: PositionHint) -> IndexPosition
    ensures value { result.value ≡ entry.now.value }
    ensures key { result.key ≡ entry.now.key }
{
    IndexPosition {
        value: entry.value,
        key: entry.key,
        tid: entry.tid,
        near,
    }
}

/// The first place of the span, in the order of this index, where the reader sees a row, and a borrow of that row. It takes no
/// memory.
pub fn next_row<'a>(
    table: &TableView<'a>,
    span: &IndexRange,
    reader: &Reader<'_>,
) -> Option<(IndexPosition, RowRef<'a>)>
    ensures { NextRow reader.now.statuses.now (IsSeenBy reader.now)
        (page_slots_of table.now.pages.now) table.now.index.now.entries span.now result }
{
    table.index.fact_ascending();
    let mut left = *span;
    for _ in 0..table.index.len() {
        match entry_in(table.index, &left) {
            None => return None,
            Some((entry, near)) => {
                let position = position_of(&entry, near);
                if let Some(row) = row_from(table, entry, near, reader) {
                    return Some((position, row));
                }
                left.last = Some(position);
            }
        }
    }
    None
}
