//! How a cursor over keys alone goes on along an index. Nothing here takes memory.

ghost use Rattle.std.specs.Prelude.{◌≡◌, ◌↔◌, IsTrue};
ghost use Rattle.space_maps.specs.View.{mark_on, says_visible};
ghost use Rattle.visibility.specs.Reading.{IsSeenBy};
ghost use Rattle.index_lookup.specs.Looking.{IsFirstOf};
ghost use Rattle.index_lookup.specs.Keys.{PlaceShows, KeyShows, NextKey};

use crate::index_scan::{IndexPosition, IndexRange, entry_in, position_of};
use crate::lookup::{fact_value, seen_at};
use crate::search::next_of;
use crate::table_view::TableView;
use heap_pages::Pages;
use root_index::{Entry, PositionHint};
use visibility::Reader;
use xid_circle::Tid;

/// True where the page of this number is noted as all-visible.
fn is_noted_visible(pages: &Pages, number: u32) -> bool
    ensures { result ≡ says_visible (mark_on pages.now.marks number) }
{
    match pages.mark(number) {
        Some(mark) => mark.is_visible(),
        None => false,
    }
}

/// True where the page of a place is noted as all-visible, and so is not looked at, or the reader sees a version in the chain
/// there.
fn place_shows(pages: &Pages, place: Tid, reader: &Reader<'_>) -> bool
    ensures { IsTrue result ↔ PlaceShows reader.now.statuses.now (IsSeenBy reader.now)
        pages.now place }
{
    if is_noted_visible(pages, place.page) {
        return true;
    }
    match seen_at(pages, place, reader) {
        Some(_) => true,
        None => false,
    }
}

/// True where the key of an entry shows, by any entry of its value and its key.
fn key_shows(table: &TableView<'_>, first: Entry, near: PositionHint, reader: &Reader<'_>) -> bool
    requires { IsFirstOf table.now.index.now.entries first }
    ensures { IsTrue result ↔ KeyShows reader.now.statuses.now (IsSeenBy reader.now)
        table.now.pages.now table.now.index.now.entries first.value first.key }
{
    table.index.fact_ascending();
    fact_value(&first);
    let mut next = Some((first, near));
    for _ in 0..table.index.len() {
        match next {
            None => return false,
            Some((entry, near)) => {
                if place_shows(table.pages, entry.tid, reader) {
                    return true;
                }
                next = next_of(table.index, first.value, first.key, entry, near);
            }
        }
    }
    false
}

/// The first place of the span, in the order of this index, whose key shows. It looks at no page that is noted as all-visible, and
/// takes no memory.
pub fn next_key(
    table: &TableView<'_>,
    span: &IndexRange,
    reader: &Reader<'_>,
) -> Option<IndexPosition>
    ensures { NextKey reader.now.statuses.now (IsSeenBy reader.now)
        table.now.pages.now table.now.index.now.entries span.now result }
{
    table.index.fact_ascending();
    let mut left = *span;
    for _ in 0..table.index.len() {
        match entry_in(table.index, &left) {
            None => return None,
            Some((entry, near)) => {
                let position = position_of(&entry, near);
                if key_shows(table, entry, near, reader) {
                    return Some(position);
                }
                left.last = Some(position);
            }
        }
    }
    None
}
