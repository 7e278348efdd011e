//! A page from bytes that come from elsewhere, or what is wrong with them.

ghost use Rattle.std.specs.Prelude.{◌≡◌, ◌≤◌, ◌<◌, ◌+◌, ◌*◌, ℕ, length, sum_by, Ok};
ghost use Rattle.page_sheet.specs.declared.sheet.TheConstants.{MOST_BYTES};
ghost use Rattle.page_layout.specs.declared.sizes.TheConstants.{PAGE_BYTES};
ghost use Rattle.page_sheet.specs.Slots.{bytes_taken};
ghost use Rattle.page_layout.specs.Layout.{pointer_in, slot_count_in};
ghost use Rattle.page_sheet.specs.Layout.{slot_in, slots_in};
ghost use Rattle.page_layout.specs.Sound.{IsSound, IsPointer};
ghost use Rattle.page_slots.specs.Reading.{page_of};
ghost use Rattle.page_layout.specs.Faults.{first_among};
ghost use Rattle.page_slots.specs.Faults.{holds_heap_only, redirect_fault, checking, AreSoundRedirects};

use crate::marks::units_of;
use crate::page::Page;
use page_layout::{
    PAGE_BYTES, PageFault, Pointer, count_of, first_slot_fault_of, frame_fault_of, part, pointer_at,
};
use page_sheet::Sheet;
use tuple_header::{MOST_SLOTS, header_of};

/// Whether a slot, whose pointer this is, holds a heap-only version.
fn holds_heap_only(bytes: &[u8], index: usize) -> bool
    requires long { length bytes.now ≡ PAGE_BYTES }
    requires few { index < MOST_SLOTS }
    requires good { IsPointer bytes.now MOST_SLOTS (pointer_in bytes.now index) }
    ensures { result ≡ holds_heap_only (slot_in bytes.now index) }
{
    match pointer_at(bytes, index) {
        Pointer::Normal(extent) => header_of(part(bytes, extent)).is_heap_only(),
        Pointer::Unused => false,
        Pointer::Redirect(_target) => false,
        Pointer::Dead => false,
    }
}

/// The fault of the slot at an index where it is a redirect that leads to anything but a heap-only version.
fn redirect_fault_of(bytes: &[u8], count: usize, index: usize) -> Option<PageFault>
    requires long { length bytes.now ≡ PAGE_BYTES }
    requires few { count ≤ MOST_SLOTS }
    requires good { (i : ℕ) → i < count → IsPointer bytes.now count (pointer_in bytes.now i) }
    requires within { index < count }
    ensures { result ≡ redirect_fault bytes.now index }
{
    match pointer_at(bytes, index) {
        Pointer::Redirect(target) => {
            if holds_heap_only(bytes, usize::from(target) - 1) {
                None
            } else {
                Some(PageFault::BadRedirect(index as u16 + 1))
            }
        }
        Pointer::Unused => None,
        Pointer::Normal(_extent) => None,
        Pointer::Dead => None,
    }
}

/// The fault of the lowest redirect that leads to anything but a heap-only version.
fn first_redirect_fault_of(bytes: &[u8], count: usize) -> Option<PageFault>
    requires long { length bytes.now ≡ PAGE_BYTES }
    requires few { count ≤ MOST_SLOTS }
    requires good { (i : ℕ) → i < count → IsPointer bytes.now count (pointer_in bytes.now i) }
    ensures { result ≡ first_among (redirect_fault bytes.now) count }
{
    for index in 0..count {
        if let Some(fault) = redirect_fault_of(bytes, count, index) {
            return Some(fault);
        }
    }
    None
}

/// The page of these bytes, which are sound, and whose versions take so many.
fn page_from(bytes: &[u8], count: usize, taken_bytes: usize) -> Page
    requires sound { IsSound bytes.now count }
    requires taken { taken_bytes ≡ sum_by bytes_taken (slots_in count bytes.now) }
    requires fits { 4 * count + taken_bytes ≤ MOST_BYTES }
    ensures { result ≡ page_of bytes.now }
{
    let mut copy = [0; PAGE_BYTES];
    copy.copy_from_slice(bytes);
    let sheet = Sheet::of(copy, count);
    let free = sheet.first_unused_from(0);
    Page {
        sheet,
        free,
        taken_bytes,
    }
}

/// The page that these bytes say, or the first fault that they have, in the order of [`PageFault`]. It takes no memory.
pub fn check_page(bytes: &[u8]) -> Result<Page, PageFault>
    ensures { result ≡ checking bytes.now }
{
    if let Some(fault) = frame_fault_of(bytes) {
        return Err(fault);
    }
    let count = count_of(bytes);
    if let Some(fault) = first_slot_fault_of(bytes, count) {
        return Err(fault);
    }
    if let Some(fault) = first_redirect_fault_of(bytes, count) {
        return Err(fault);
    }
    match units_of(bytes, count) {
        Ok(units) => Ok(page_from(bytes, count, 8 * units)),
        Err(fault) => Err(fault),
    }
}

/// A page is read from its own bytes, where each redirect leads to a heap-only version. (It is a law that does what it says.)
pub fn reads_back(page: &Page) -> Result<Page, PageFault>
    requires { AreSoundRedirects page.now.slots }
    ensures { result ≡ Ok page.now }
{
    check_page(page.bytes())
}
