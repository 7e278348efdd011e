//! The choice of a page: the first that has room.

ghost use Rattle.std.specs.Prelude.{◌≡◌, ◌≤◌, IsTrue, ◌↔◌, length};
ghost use Rattle.page_sheet.specs.Slots.{room_of};
ghost use Rattle.heap_pages.specs.Choice.{free_byte_of, HasRoom, FindsFirstPage};
ghost use Rattle.heap_pages.specs.View.{free_space_bytes};
ghost use Rattle.heap_pages.specs.declared.pages.TheConstants.{MOST_PAGES};

use crate::own_page::OwnPage;
use page_slots::Page;
use space_maps::FreeMap;

/// The free-space byte of a page: how many times its room holds 32 bytes, at most 255.
pub fn free_byte(page: &Page) -> u8
    ensures { result ≡ free_byte_of (room_of page.now.slots) }
{
    (page.room() / 32).min(255) as u8
}

// True where a version of this size fits.
fn has_room(page: &Page, size: usize) -> bool
    ensures { IsTrue result ↔ HasRoom size page.now }
{
    size <= page.room()
}

/// The first page in which a version of this size fits, if there is one. A page is looked at only where its byte in the map
/// is large enough.
pub(crate) fn first_with_room(pages: &[OwnPage], map: &FreeMap, size: usize) -> Option<u32>
    requires few { length pages.now ≤ MOST_PAGES }
    requires bytes { map.now.bytes ≡ free_space_bytes pages.now }
    ensures { FindsFirstPage pages.now (HasRoom size) result }
{
    let least = (size / 32).min(255) as u8;
    let mut from = 0;
    while let Some(number) = map.next(from, least) {
        if has_room(pages[number as usize].page(), size) {
            return Some(number);
        }
        from = number + 1;
    }
    None
}
