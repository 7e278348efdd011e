//! What is wrong with the header of a page, or with one of its slots by itself.

ghost use Rattle.std.specs.Prelude.{◌≡◌, ◌≤◌, ◌<◌, ◌+◌, length};
ghost use Rattle.tuple_header.specs.declared.version.TheConstants.{MOST_SLOTS};
ghost use Rattle.page_layout.specs.declared.sizes.TheConstants.{PAGE_BYTES, PAGE_HEADER_BYTES};
ghost use Rattle.page_layout.specs.declared.pointer.Extent.{Extent as SpecExtent};
ghost use Rattle.page_layout.specs.declared.pointer.Pointer.{Pointer as SpecPointer};
ghost use Rattle.page_layout.specs.Layout.{pointer_of, slot_count_in};
ghost use Rattle.page_layout.specs.Faults.{has_wrong_header, has_wrong_bounds, frame_fault, is_bad_word, has_bad_tuple, slot_fault, first_among};

use crate::faults::PageFault;
use crate::numbers::{u16_at, u32_at};
use crate::parts::part;
use crate::pointer::{Pointer, pointer_at};
use crate::sizes::{PAGE_BYTES, PAGE_HEADER_BYTES};
use tuple_header::{BODY_START, MOST_SLOTS, decode};

/// Whether a field of the header that never changes is wrong.
fn has_wrong_header(bytes: &[u8]) -> bool
    requires { PAGE_HEADER_BYTES ≤ length bytes.now }
    ensures { result ≡ has_wrong_header bytes.now }
{
    let flags = u16_at(bytes, 10);
    u16_at(bytes, 8) != 0
        || !(flags == 0 || flags == 4)
        || u16_at(bytes, 16) != PAGE_BYTES as u16
        || u16_at(bytes, 18) != PAGE_BYTES as u16 + 4
        || u32_at(bytes, 20) != 0
}

/// Whether the places where the pointers end and the versions begin are wrong.
fn has_wrong_bounds(bytes: &[u8]) -> bool
    requires { PAGE_HEADER_BYTES ≤ length bytes.now }
    ensures { result ≡ has_wrong_bounds bytes.now }
{
    let lower = usize::from(u16_at(bytes, 12));
    let upper = usize::from(u16_at(bytes, 14));
    lower < PAGE_HEADER_BYTES
        || lower > PAGE_HEADER_BYTES + 4 * usize::from(MOST_SLOTS)
        || (lower - PAGE_HEADER_BYTES) % 4 != 0
        || upper < lower
        || upper > PAGE_BYTES
        || upper % 8 != 0
}

/// The fault that is found before the slots are looked at.
#[tactic(auto, unfolding(crate::specs::Faults::frame_fault))]
pub fn frame_fault_of(bytes: &[u8]) -> Option<PageFault>
    ensures { result ≡ frame_fault bytes.now }
{
    if bytes.len() != PAGE_BYTES {
        Some(PageFault::Length)
    } else if has_wrong_header(bytes) {
        Some(PageFault::Header)
    } else if has_wrong_bounds(bytes) {
        Some(PageFault::Bounds)
    } else {
        None
    }
}

/// Whether a pointer's word is wrong, on a page of so many slots whose versions begin at `upper`.
fn is_bad_word(word: u32, count: usize, upper: usize) -> bool
    ensures { result ≡ is_bad_word count upper word (pointer_of word) }
{
    let has_length = word / 131072 != 0;
    let has_place = word % 32768 != 0 || has_length;
    match Pointer::of(word) {
        Pointer::Unused => has_place,
        Pointer::Normal(extent) => {
            let from = usize::from(extent.from);
            let size = usize::from(extent.len).next_multiple_of(8);
            extent.len < BODY_START as u16
                || from % 8 != 0
                || from < upper
                || from + size > PAGE_BYTES
        }
        Pointer::Redirect(target) => has_length || target == 0 || usize::from(target) > count,
        Pointer::Dead => has_place,
    }
}

/// Whether the bytes of the version at an index, if there is one, have a fault.
fn has_bad_tuple(bytes: &[u8], pointer: Pointer) -> bool
    requires long { length bytes.now ≡ PAGE_BYTES }
    requires whole { (e : SpecExtent) → pointer ≡ SpecPointer.Normal e
        → e.from + e.len ≤ PAGE_BYTES }
    ensures { result ≡ has_bad_tuple bytes.now pointer }
{
    match pointer {
        Pointer::Normal(extent) => match decode(part(bytes, extent)) {
            Ok(_version) => false,
            Err(_fault) => true,
        },
        Pointer::Unused => false,
        Pointer::Redirect(_target) => false,
        Pointer::Dead => false,
    }
}

/// The fault of the slot at an index: that of its pointer, or else that of its version's bytes.
fn slot_fault_of(bytes: &[u8], count: usize, index: usize) -> Option<PageFault>
    requires long { length bytes.now ≡ PAGE_BYTES }
    requires all { count ≡ slot_count_in bytes.now }
    requires few { count ≤ MOST_SLOTS }
    requires within { index < count }
    ensures { result ≡ slot_fault bytes.now index }
{
    let number = index as u16 + 1;
    let upper = usize::from(u16_at(bytes, 14));
    if is_bad_word(u32_at(bytes, PAGE_HEADER_BYTES + 4 * index), count, upper) {
        return Some(PageFault::BadPointer(number));
    }
    if has_bad_tuple(bytes, pointer_at(bytes, index)) {
        return Some(PageFault::BadTuple(number));
    }
    None
}

/// The fault of the lowest slot that has one by itself.
pub fn first_slot_fault_of(bytes: &[u8], count: usize) -> Option<PageFault>
    requires long { length bytes.now ≡ PAGE_BYTES }
    requires all { count ≡ slot_count_in bytes.now }
    requires few { count ≤ MOST_SLOTS }
    ensures { result ≡ first_among (slot_fault bytes.now) count }
{
    for index in 0..count {
        if let Some(fault) = slot_fault_of(bytes, count, index) {
            return Some(fault);
        }
    }
    None
}

/// How many pointers stand before the place where they end.
pub fn count_of(bytes: &[u8]) -> usize
    requires { PAGE_HEADER_BYTES ≤ length bytes.now }
    ensures { result ≡ slot_count_in bytes.now }
{
    usize::from(u16_at(bytes, 12)).saturating_sub(PAGE_HEADER_BYTES) / 4
}
