//! A walk over all pages, along the chain of each root and redirect.

ghost use Rattle.std.specs.Prelude.{◌≡◌, ◌<◌, ◌+◌, suc, false, [], IfOk, OnOk, OnErr, MatchOption, length};
ghost use Rattle.visibility.specs.Reading.{IsSeenBy};
ghost use Rattle.hot_chain.specs.Chain.{has_aborted, SeenAlong};
ghost use Rattle.index_lookup.specs.Pages.{page_slots_of};
ghost use Rattle.entry_columns.specs.Fits.{Fits};
ghost use Rattle.entry_columns.specs.declared.short_tid.TheConstants.{PAGES};
ghost use Rattle.table_indexes.specs.Indexes.{index_entry_of};
ghost use Rattle.index_making.specs.Making.{ListsCurrent, SomeCurrent};
ghost use Rattle.index_making.specs.Listing.{ReadsCurrent, IsRowOfCurrent, LacksCurrent, SomeFirstCurrent, AddsCurrent, ListsUpTo};
ghost use Rattle.tuple_header.specs.declared.version.TheConstants.{COLUMNS};

use crate::filling::Filling;
use commit_status::StatusTable;
use heap_pages::Pages;
use hot_chain::{first_seen, is_root};
use page_slots::Page;
use root_index::{Entry, RootIndex};
use snapshot::{OwnIds, Snapshot};
use std::alloc::{AllocError, Global};
use tuple_header::RowRef;
use visibility::Reader;
use xid_circle::Tid;

/// The entries of an index by this column, from 0 to 3, of the rows that are current: one for each chain that holds one, by its first
/// current version. Memory is asked for only where a row is current. (The manual's CREATE INDEX; README.HOT.)
pub fn list_current(
    alloc: Global,
    pages: &Pages,
    statuses: &StatusTable,
    column: u8,
) -> Result<RootIndex, AllocError>
    requires { column < COLUMNS }
    ensures lists { IfOk result (λ index.
        ListsCurrent statuses.now (page_slots_of pages.now) (suc column) index.entries) }
    ensures kind { IfOk result (λ index. index.is_by_key ≡ false) }
    ensures refused { OnErr result (SomeCurrent statuses.now (page_slots_of pages.now)) }
{
    let snapshot = Snapshot::empty(alloc, statuses.next());
    let own = OwnIds::new(alloc);
    let reader = Reader {
        snapshot: &snapshot,
        own: &own,
        statuses,
    };
    let mut filling = Filling::new(alloc);
    list_pages(pages, column, &reader, &mut filling)?;
    filling.finish()
}

/// Adds the entries of all pages, one page after another.
fn list_pages(
    pages: &Pages,
    column: u8,
    reader: &Reader<'_>,
    filling: &mut Filling,
) -> Result<(), AllocError>
    requires column { column < COLUMNS }
    requires reads { ReadsCurrent reader.now.statuses.now reader.now }
    requires none { filling.old ≡ [] }
    ensures lists { OnOk result (ListsCurrent reader.now.statuses.now (page_slots_of pages.now)
        (suc column) filling.new) }
    ensures refused { OnErr result
        (SomeCurrent reader.now.statuses.now (page_slots_of pages.now)) }
{
    for number in 0..pages.len() {
        list_page(pages, number, column, reader, filling)?;
    }
    Ok(())
}

/// Adds the entries of one page, one slot after another.
fn list_page(
    pages: &Pages,
    number: u32,
    column: u8,
    reader: &Reader<'_>,
    filling: &mut Filling,
) -> Result<(), AllocError>
    requires column { column < COLUMNS }
    requires within { number < length pages.now.pages }
    requires few { number < PAGES }
    requires reads { ReadsCurrent reader.now.statuses.now reader.now }
    requires before { ListsUpTo reader.now.statuses.now (page_slots_of pages.now) (suc column)
        number 0 filling.old }
    ensures lists { OnOk result (ListsUpTo reader.now.statuses.now (page_slots_of pages.now)
        (suc column) (number + 1) 0 filling.new) }
    ensures refused { OnErr result
        (SomeCurrent reader.now.statuses.now (page_slots_of pages.now)) }
{
    let page = pages.page_at(number);
    for slot in 1..page.slots() + 1 {
        enter_current(page, Tid { page: number, slot }, column, reader, filling)?;
    }
    Ok(())
}

/// Adds the entry of the chain of a place on this page, if a root or a redirect is there and its chain holds a current version.
fn enter_current(
    page: &Page,
    place: Tid,
    column: u8,
    reader: &Reader<'_>,
    filling: &mut Filling,
) -> Result<(), AllocError>
    requires column { column < COLUMNS }
    requires page { place.page < PAGES }
    requires reads { ReadsCurrent reader.now.statuses.now reader.now }
    ensures adds { OnOk result (AddsCurrent reader.now.statuses.now page.now.slots (suc column)
        place filling.old filling.new) }
    ensures refused { OnErr result
        (SomeFirstCurrent reader.now.statuses.now page.now.slots place.slot) }
{
    match current_row(page, place.slot, reader) {
        Some(row) => filling.add(entry_of(&row, column, place)),
        None => Ok(()),
    }
}

/// The entry of a row in the index by this column, which leads to this place.
fn entry_of(row: &RowRef<'_>, column: u8, place: Tid) -> Entry
    requires column { column < COLUMNS }
    requires page { place.page < PAGES }
    ensures entry { result ≡ index_entry_of (suc column) row.now place }
    ensures fits { Fits false false result }
{
    Entry {
        value: row.cols()[column as usize] as i128,
        key: row.key(),
        tid: place,
    }
}

/// Borrows the row of the first current version of a chain, if the slot is a root or a redirect and its chain holds one.
fn current_row<'a>(page: &'a Page, root: u16, reader: &Reader<'_>) -> Option<RowRef<'a>>
    requires { ReadsCurrent reader.now.statuses.now reader.now }
    ensures { MatchOption result (LacksCurrent reader.now.statuses.now page.now.slots root)
        (IsRowOfCurrent reader.now.statuses.now page.now.slots root) }
{
    if !is_root(page, root) {
        return None;
    }
    match seen_slot(page, root, reader) {
        Some(slot) => page.row(slot),
        None => None,
    }
}

/// The slot of the first version of a slot's chain that the reader sees, as [`first_seen`] finds it.
fn seen_slot(page: &Page, root: u16, reader: &Reader<'_>) -> Option<u16>
    ensures { SeenAlong (has_aborted reader.now.statuses.now) (IsSeenBy reader.now)
        page.now.slots root result }
{
    match page.header(root) {
        // it is its whole chain
        Some(header) if !header.is_hot_updated() => {
            if reader.sees(&header) {
                Some(root)
            } else {
                None
            }
        }
        _ => first_seen(page, root, reader),
    }
}
