//! A look at what is noted of the pages, and at the entries of the indexes, beside the pages themselves.

ghost use Rattle.std.specs.Prelude.{◌≡◌, ◌↔◌, ℕ, IsTrue};
ghost use Rattle.page_sheet.specs.Slots.{slot_at};
ghost use Rattle.side_by_side.specs.Noted.{KeepsNote, IsAsNoted};

use page_slots::Page;
use root_index::{Entry, RootIndex};
use session_core::Engine;
use tuple_header::RowRef;

// Whether the slot is as it has to be on a page that is all-visible, or all-frozen.
fn keeps_note(page: &Page, number: u16, is_frozen: bool) -> bool
    ensures { IsTrue result ↔ KeepsNote is_frozen (slot_at page.now.slots number) }
{
    match page.header(number) {
        Some(header) => header.xmax.0 == 0 && (!is_frozen || header.is_frozen()),
        None => !page.is_dead(number),
    }
}

// Whether each slot is so.
fn all_keep_note(page: &Page, is_frozen: bool) -> bool
    ensures { IsTrue result
        ↔ ((n : ℕ) → KeepsNote is_frozen (slot_at page.now.slots n)) }
{
    for number in 1..page.slots() + 1 {
        if !keeps_note(page, number, is_frozen) {
            return false;
        }
    }
    true
}

// Whether the page is as these bits of the visibility map and its own flag say.
fn is_as_noted(page: &Page, bits: u8) -> bool
    ensures { IsTrue result ↔ IsAsNoted page.now bits }
{
    if bits == 0 {
        return !page.flag();
    }
    page.flag() && all_keep_note(page, bits == 2)
}

/// The first of so many pages that is not as is noted of it, if there is one.
pub(crate) fn first_misnoted(engine: &Engine, pages: u32) -> Option<u32> {
    for number in 0..pages {
        if let (Some(page), Some(bits)) = (engine.page(number), engine.page_bits(number)) {
            if !is_as_noted(page, bits) {
                return Some(number);
            }
        }
    }
    None
}

/// Whether all of so many pages that are in use are noted as all-visible.
pub(crate) fn are_all_visible(engine: &Engine, pages: u32) -> bool {
    for number in 0..pages {
        if engine.page_bits(number) == Some(0) {
            return false;
        }
    }
    true
}

// Whether an entry of this index may be of the row: it has its key, and its value is that of the column.
fn is_of_row(entry: Entry, index: u8, row: &RowRef<'_>) -> bool {
    let value = match index {
        1..=4 => i128::from(row.cols()[index as usize - 1]),
        _ => i128::from(row.key()),
    };
    entry.key == row.key() && entry.value == value
}

// Whether the slot has a version of the entry's row, which is heap-only or is not.
fn has_row(page: &Page, slot: u16, entry: Entry, index: u8, is_heap_only: bool) -> bool {
    match (page.header(slot), page.row(slot)) {
        (Some(header), Some(row)) => {
            header.is_heap_only() == is_heap_only && is_of_row(entry, index, &row)
        }
        _ => false,
    }
}

// Whether the entry leads to the root of a chain of its row, or to a dead slot.
fn leads_to_root(page: &Page, entry: Entry, index: u8) -> bool {
    let slot = entry.tid.slot;
    match page.redirect(slot) {
        Some(target) => has_row(page, target, entry, index, true),
        None => page.is_dead(slot) || has_row(page, slot, entry, index, false),
    }
}

// Whether a version of the entry's row stands in the chain from this slot on.
fn has_row_in_chain(page: &Page, slot: u16, entry: Entry, index: u8) -> bool {
    let mut at = slot;
    for _ in 0..page.slots() {
        let Some(header) = page.header(at) else {
            return false;
        };
        if has_row(page, at, entry, index, header.is_heap_only()) {
            return true;
        }
        if !header.is_hot_updated() {
            return false;
        }
        at = header.ctid.slot;
    }
    false
}

// Whether the entry of an index that was made in use leads to a chain that has a version of its row, or to a dead slot. Older versions
// of that chain may have other values.
fn leads_to_chain(page: &Page, entry: Entry, index: u8) -> bool {
    let slot = entry.tid.slot;
    match page.redirect(slot) {
        Some(target) => has_row_in_chain(page, target, entry, index),
        None => page.is_dead(slot) || has_row_in_chain(page, slot, entry, index),
    }
}

fn leads_right(page: &Page, entry: Entry, index: u8, is_made: bool) -> bool {
    if is_made {
        leads_to_chain(page, entry, index)
    } else {
        leads_to_root(page, entry, index)
    }
}

// Whether each entry of the index of this number leads to the root of a chain of its row, or to a dead slot. Of an index that was made in
// use the chain may have versions of other rows before.
fn leads_to_roots(engine: &Engine, index: &RootIndex, number: u8, is_made: bool) -> bool {
    let mut from = None;
    for _ in 0..index.len() {
        let Some(entry) = index.next_after(from) else {
            return false;
        };
        match engine.page(entry.tid.page) {
            Some(page) if leads_right(page, entry, number, is_made) => from = Some(entry),
            _ => return false,
        }
    }
    true
}

/// How many slots of a table are of each kind that an index leads to, and how many versions there are.
#[derive(Clone, Copy)]
pub(crate) struct SlotCounts {
    /// Versions that are not heap-only, and redirects: each has an entry in each index.
    pub(crate) roots: u64,
    /// Dead slots: each may have one.
    pub(crate) dead: u64,
    /// Versions.
    pub(crate) versions: u64,
}

impl SlotCounts {
    fn add_root(&mut self) {
        self.roots = self.roots.saturating_add(1);
    }

    fn add_slot(&mut self, page: &Page, number: u16) {
        if let Some(header) = page.header(number) {
            self.versions = self.versions.saturating_add(1);
            if !header.is_heap_only() {
                self.add_root();
            }
        } else if page.is_dead(number) {
            self.dead = self.dead.saturating_add(1);
        } else if page.redirect(number).is_some() {
            self.add_root();
        }
    }

    // Counts the slots of the page.
    fn add_page(&mut self, page: &Page) {
        for number in 1..page.slots() + 1 {
            self.add_slot(page, number);
        }
    }

    // Whether there may be so many entries in an index. One that was made in use need not lead to a row that was deleted before.
    fn allows(self, entries: u64, is_made: bool) -> bool {
        (is_made || self.roots <= entries) && entries <= self.roots.saturating_add(self.dead)
    }
}

/// Counts the slots of so many pages.
pub(crate) fn count_slots(engine: &Engine, pages: u32) -> SlotCounts {
    let mut counts = SlotCounts {
        roots: 0,
        dead: 0,
        versions: 0,
    };
    for number in 0..pages {
        if let Some(page) = engine.page(number) {
            counts.add_page(page);
        }
    }
    counts
}

// Whether as many entries lead where they have to as there may be in the index.
fn is_right(engine: &Engine, counts: SlotCounts, number: u8, is_made: bool) -> bool {
    match engine.index(number) {
        Some(index) => {
            counts.allows(index.len(), is_made) && leads_to_roots(engine, index, number, is_made)
        }
        None => true,
    }
}

/// The first index that has an entry that leads to no root of its row, or lacks one, if there is such an index. Of each number is said
/// whether that index was made in use.
pub(crate) fn first_astray(engine: &Engine, counts: SlotCounts, made: [bool; 5]) -> Option<u8> {
    for number in 0..5u8 {
        if !is_right(engine, counts, number, made[number as usize]) {
            return Some(number);
        }
    }
    None
}
