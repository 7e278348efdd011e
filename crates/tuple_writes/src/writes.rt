//! Writes. None takes memory, and each fits: the caller has tested the page's room.

ghost use Rattle.std.specs.Prelude.{◌≡◌, ◌≤◌, false, true};
ghost use Rattle.xid_circle.specs.Circle.{IsNormal};
ghost use Rattle.page_sheet.specs.Slots.{room_of, free_number, next_change, IsNormalAt};
ghost use Rattle.tuple_header.specs.Version.{rounded_size_of};
ghost use Rattle.tuple_writes.specs.Writes.{replaced_change, with_root, with_updated, PutsXmax, AddsToPage};
ghost use Rattle.tuple_header.specs.declared.version.TheConstants.{MOST_SLOTS};

use crate::headers::{heap_only, replace_header, root};
use page_slots::Page;
use tuple_header::Row;
use xid_circle::{Tid, Xid};

/// Adds a version of the row, made by `x`, a normal id, as a root, and answers its slot's number. It goes in the lowest
/// unused slot, else in a new last one. It is marked as made by an update, if it is, or else by an insert. The page has
/// the number given, and room for the row. (PostgreSQL, `heap_insert` and `heap_update` in
/// src/backend/access/heap/heapam.c.)
pub fn add_root(page: &mut Page, number_of_page: u32, updated: bool, x: Xid, row: &Row) -> u16
    requires normal { IsNormal x.0 }
    requires room { rounded_size_of row.now ≤ room_of page.old.slots }
    ensures number { result ≡ free_number page.old.slots }
    ensures limit { result ≤ MOST_SLOTS }
    ensures adds { AddsToPage page.old page.new
        (with_root page.old.slots updated x.0 number_of_page row.now)
        (next_change page.old.change) }
{
    let _room = page.room();
    let slot = page.free_number();
    let place = Tid {
        page: number_of_page,
        slot,
    };
    let header = root(updated, x, place);
    page.add_row(header, row)
}

/// Notes that `x` took away the version in a slot, and where its successor is.
fn set_xmax(page: &mut Page, slot: u16, x: Xid, place: Tid, hot: bool)
    requires version { IsNormalAt page.old.slots slot }
    requires normal { IsNormal x.0 }
    requires from { 1 ≤ place.slot }
    requires to { place.slot ≤ MOST_SLOTS }
    ensures { PutsXmax page.old page.new slot x.0 place hot }
{
    match page.header(slot) {
        Some(header) => page.set_header(slot, replace_header(&header, x, place, hot)),
        None => unreachable!(),
    }
}

/// Deletes the version in a slot, as `x`, a normal id: it points at itself, and whatever an aborted deleter left is written
/// over. The page has the number given. (PostgreSQL, `heap_delete` in src/backend/access/heap/heapam.c.)
pub fn delete_version(page: &mut Page, number_of_page: u32, slot: u16, x: Xid)
    requires version { IsNormalAt page.old.slots slot }
    requires normal { IsNormal x.0 }
    ensures { PutsXmax page.old page.new slot x.0
        (record { page = number_of_page; slot = slot }) false }
{
    let _slots = page.slots();
    let own = Tid {
        page: number_of_page,
        slot,
    };
    set_xmax(page, slot, x, own, false);
}

/// Notes in the version in a slot that `x`, a normal id, replaced it by one at `place`, which has an index entry of its
/// own. (PostgreSQL, `heap_update` in src/backend/access/heap/heapam.c. The call says what `set_xmax` is told by a flag.)
pub fn mark_cold_updated(page: &mut Page, slot: u16, x: Xid, place: Tid)
    requires version { IsNormalAt page.old.slots slot }
    requires normal { IsNormal x.0 }
    requires from { 1 ≤ place.slot }
    requires to { place.slot ≤ MOST_SLOTS }
    ensures { PutsXmax page.old page.new slot x.0 place false }
{
    set_xmax(page, slot, x, place, false);
}

/// Updates the version in a slot by one of this row on the same page, as `x`, a normal id, and answers the new one's slot. The
/// old one is HOT-updated, the new one heap-only. The page has the number given, and room for the row. (README.HOT: such an
/// update makes no index entry.)
pub fn hot_update(page: &mut Page, number_of_page: u32, slot: u16, x: Xid, row: &Row) -> u16
    requires version { IsNormalAt page.old.slots slot }
    requires normal { IsNormal x.0 }
    requires room { rounded_size_of row.now ≤ room_of page.old.slots }
    ensures number { result ≡ free_number page.old.slots }
    ensures limit { result ≤ MOST_SLOTS }
    ensures adds { AddsToPage page.old page.new
        (with_updated page.old.slots slot x.0 number_of_page row.now)
        (replaced_change page.old.slots slot x.0 number_of_page (free_number page.old.slots) true
        (next_change page.old.change)) }
{
    let _room = page.room();
    let number = page.free_number();
    let place = Tid {
        page: number_of_page,
        slot: number,
    };
    let header = heap_only(x, place);
    page.add_row(header, row);
    set_xmax(page, slot, x, place, true);
    number
}
