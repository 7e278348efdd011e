//! Looking along the entries of one value and one key, and at one place. Nothing here takes memory.

ghost use Rattle.std.specs.Prelude.{◌≡◌, None, Some, FitsSigned};
ghost use Rattle.std.specs.Int.{w128};
ghost use Rattle.std.specs.Option.{option_map};
ghost use Rattle.tuple_header.specs.Faults.{header_fault};
ghost use Rattle.index_entries.specs.Sets.{IsOf};
ghost use Rattle.index_lookup.specs.Pages.{version_in, page_slots_of};
ghost use Rattle.visibility.specs.Reading.{IsSeenBy};
ghost use Rattle.index_lookup.specs.Looking.{IsNextOf, IsFirstOf, FirstFound, SeenAt, FirstPlace, IsPlaceIn, IsPlaceAlong};
ghost use Rattle.index_lookup.specs.Walking.{SeenRow};

use crate::search::{begin_search, next_of};
use crate::table_view::TableView;
use heap_pages::Pages;
use hot_chain::first_seen;
use page_slots::Page;
use root_index::{Entry, LookUp, PositionHint};
use tuple_header::{Header, RowRef};
use visibility::Reader;
use xid_circle::Tid;

/// The entry that a look-up found, if it found one, and where it was.
#[inline(always)]
pub(crate) fn with_hint(look_up: LookUp) -> Option<(Entry, PositionHint)>
    ensures { option_map (λ found. found.0) result ≡ look_up.found }
{
    match look_up.found {
        Some(entry) => Some((entry, look_up.near)),
        None => None,
    }
}

/// The value of an entry is in range. It does nothing; its contract is the fact.
pub(crate) fn fact_value(entry: &Entry)
    ensures { FitsSigned w128 entry.now.value }
{
    let _value = entry.value;
}

/// The place of the version of this header, if the reader sees it.
pub(crate) fn place_in(place: Tid, header: &Header, reader: &Reader<'_>) -> Option<Tid>
    requires { header_fault header.now ≡ None }
    ensures { IsPlaceIn (IsSeenBy reader.now) place header.now result }
{
    if reader.sees(header) {
        Some(place)
    } else {
        None
    }
}

/// The place of the first version that the reader sees in the chain that a slot of this page leads to.
fn seen_along(page: &Page, place: Tid, reader: &Reader<'_>) -> Option<Tid>
    ensures { IsPlaceAlong reader.now.statuses.now (IsSeenBy reader.now) page.now.slots place
        result }
{
    match first_seen(page, place.slot, reader) {
        Some(slot) => Some(Tid {
            page: place.page,
            slot,
        }),
        None => None,
    }
}

/// The place of the first version that the reader sees in the chain of a place. A page that is not in use has no chains.
#[inline(always)]
pub(crate) fn seen_at(pages: &Pages, place: Tid, reader: &Reader<'_>) -> Option<Tid>
    ensures { SeenAt reader.now.statuses.now (IsSeenBy reader.now)
        (page_slots_of pages.now) place result }
{
    let page = match pages.page(place.page) {
        Some(page) => page,
        None => return None,
    };
    match page.header(place.slot) {
        // it is its whole chain
        Some(header) if !header.is_hot_updated() => place_in(place, &header, reader),
        _ => seen_along(page, place, reader),
    }
}

/// The place of the first version that the reader sees. It is looked for along the entries of the value and the key of this one
/// in their order, and along the chain of each. A caller that knows the first of these entries and its position saves the
/// search for it. It takes no memory.
pub fn place_from(
    table: &TableView<'_>,
    first: Entry,
    near: PositionHint,
    reader: &Reader<'_>,
) -> Option<Tid>
    requires { IsFirstOf table.now.index.now.entries first }
    ensures { FirstPlace reader.now.statuses.now (IsSeenBy reader.now)
        (page_slots_of table.now.pages.now) table.now.index.now.entries
        first.value first.key result }
{
    table.index.fact_ascending();
    fact_value(&first);
    let mut next = Some((first, near));
    for _ in 0..table.index.len() {
        match next {
            None => return None,
            Some((entry, near)) => {
                if let Some(place) = seen_at(table.pages, entry.tid, reader) {
                    return Some(place);
                }
                next = next_of(table.index, first.value, first.key, entry, near);
            }
        }
    }
    None
}

/// The place of the first version that the reader sees, along the entries of this value and this key in their order, and
/// along the chain of each. It takes no memory.
pub fn place_of(table: &TableView<'_>, value: i128, key: u64, reader: &Reader<'_>) -> Option<Tid>
    ensures { FirstPlace reader.now.statuses.now (IsSeenBy reader.now)
        (page_slots_of table.now.pages.now) table.now.index.now.entries
        value key result }
{
    let first = begin_search(table.index, value, key);
    match first.next {
        Some(entry) => place_from(table, entry, first.near, reader),
        None => None,
    }
}

/// Borrows the row of the version at a place, if there is one.
fn row_at(pages: &Pages, place: Tid) -> Option<RowRef<'_>>
    ensures { result ≡ option_map (λ t. t.row) (version_in (page_slots_of pages.now) place) }
{
    match pages.page(place.page) {
        Some(page) => page.row(place.slot),
        None => None,
    }
}

/// Borrows the row of the first version that the reader sees, along the entries of this value and this key in their order, and
/// along the chain of each. It takes no memory.
pub fn row_of<'a>(
    table: &TableView<'a>,
    value: i128,
    key: u64,
    reader: &Reader<'_>,
) -> Option<RowRef<'a>>
    ensures { FirstFound reader.now.statuses.now (IsSeenBy reader.now)
        (page_slots_of table.now.pages.now) table.now.index.now.entries
        value key result }
{
    match place_of(table, value, key, reader) {
        Some(place) => row_at(table.pages, place),
        None => None,
    }
}

/// Borrows the row of the first version that the reader sees, as [`place_from`] finds its place. It takes no memory.
pub fn row_from<'a>(
    table: &TableView<'a>,
    first: Entry,
    near: PositionHint,
    reader: &Reader<'_>,
) -> Option<RowRef<'a>>
    requires { IsFirstOf table.now.index.now.entries first }
    ensures { FirstFound reader.now.statuses.now (IsSeenBy reader.now)
        (page_slots_of table.now.pages.now) table.now.index.now.entries
        first.value first.key result }
{
    match place_from(table, first, near, reader) {
        Some(place) => row_at(table.pages, place),
        None => None,
    }
}

/// Borrows the row of the version in a slot of the page, if the reader sees it. It takes no memory.
#[inline(always)]
pub fn seen_row<'a>(page: &'a Page, slot: u16, reader: &Reader<'_>) -> Option<RowRef<'a>>
    ensures { SeenRow (IsSeenBy reader.now) page.now.slots slot result }
{
    match page.header(slot) {
        Some(header) if reader.sees(&header) => page.row(slot),
        _ => None,
    }
}
