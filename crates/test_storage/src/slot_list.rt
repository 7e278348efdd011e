//! A list of slots, and what the rules of a page say of it.

use arrayvec::ArrayVec;
use page_slots::{Page, Slot};
use tuple_header::Row;

/// The most slots of a page.
pub const MOST: usize = 291;

/// What stands in a slot.
#[derive(Clone, Copy, Debug, Default, PartialEq, Eq)]
pub enum Listed {
    #[default]
    Unused,
    /// A version of this key, with a body of so many bytes, heap-only or not.
    Version(u8, u16, bool),
    /// Leads to the slot of this number.
    Redirect(u16),
    Dead,
}

/// The slots of a page in their order, and how often one was changed.
#[derive(Drop)]
pub struct SlotList {
    pub slots: ArrayVec<Listed, MOST>,
    pub change: u64,
}

/// How many bytes a version takes with a body of so many: 24 of header, 42 of key, columns and length, rounded up to a
/// multiple of 8.
pub fn size_of(length: u16) -> usize {
    (usize::from(length) + 66).div_ceil(8).saturating_mul(8)
}

fn bytes_of(listed: &Listed) -> usize {
    match listed {
        Listed::Version(_key, length, _heap_only) => size_of(*length),
        Listed::Unused | Listed::Redirect(_) | Listed::Dead => 0,
    }
}

fn bytes_of_all(slots: &[Listed]) -> usize {
    let mut bytes: usize = 0;
    for listed in slots {
        bytes = bytes.saturating_add(bytes_of(listed));
    }
    bytes
}

fn first_unused(slots: &[Listed]) -> Option<usize> {
    slots.iter().position(|listed| *listed == Listed::Unused)
}

fn holds_heap_only(slots: &[Listed], number: u16) -> bool {
    match slots.get(usize::from(number).wrapping_sub(1)) {
        Some(Listed::Version(_key, _length, heap_only)) => *heap_only,
        _ => false,
    }
}

impl SlotList {
    /// The number that the next version gets.
    pub fn free_number(&self) -> usize {
        match first_unused(&self.slots) {
            Some(index) => index.saturating_add(1),
            None => self.slots.len().saturating_add(1),
        }
    }

    /// The largest size that a new version may have.
    pub fn room(&self) -> usize {
        let pointers = self.slots.len().saturating_mul(4);
        let free = 8168usize
            .saturating_sub(pointers)
            .saturating_sub(bytes_of_all(&self.slots));
        if first_unused(&self.slots).is_some() {
            free
        } else if self.slots.len() < MOST {
            free.saturating_sub(4)
        } else {
            0
        }
    }

    /// A version goes into the lowest unused slot, or else into a new one.
    pub fn add(&mut self, listed: Listed) {
        match first_unused(&self.slots) {
            Some(index) => self.put(index, listed),
            None => {
                let _ = self.slots.try_push(listed);
                self.change = self.change.wrapping_add(1);
            }
        }
    }

    /// This stands at an index now. It is a change unless it stood there before.
    pub fn put(&mut self, index: usize, listed: Listed) {
        if let Some(slot) = self.slots.get_mut(index) {
            if *slot != listed {
                *slot = listed;
                self.change = self.change.wrapping_add(1);
            }
        }
    }

    /// The number of the lowest redirect that leads to anything but a heap-only version.
    pub fn fault(&self) -> Option<u16> {
        for (index, listed) in self.slots.iter().enumerate() {
            if let Listed::Redirect(target) = listed {
                if !holds_heap_only(&self.slots, *target) {
                    return Some((index as u16).wrapping_add(1));
                }
            }
        }
        None
    }
}

fn has_body(row: &Row, key: u8, length: u16) -> bool {
    row.key == u64::from(key)
        && row.body.len() == usize::from(length)
        && row.body.iter().all(|byte| *byte == key)
}

fn holds(page: &Page, number: u16, listed: &Listed) -> bool {
    match (page.slot(number), listed) {
        (Some(Slot::Unused), Listed::Unused) => true,
        (Some(Slot::Dead), Listed::Dead) => true,
        (Some(Slot::Redirect(target)), Listed::Redirect(expected)) => target == *expected,
        (Some(Slot::Normal(found)), Listed::Version(key, length, heap_only)) => {
            found.header.is_heap_only() == *heap_only && has_body(&found.row, *key, *length)
        }
        _ => false,
    }
}

/// The first number at which the page has another slot than the list.
pub fn first_other(page: &Page, list: &SlotList) -> Option<usize> {
    for (index, listed) in list.slots.iter().enumerate() {
        if !holds(page, (index as u16).wrapping_add(1), listed) {
            return Some(index.saturating_add(1));
        }
    }
    None
}

/// Whether the page says of itself what the list says.
pub fn agrees(page: &Page, list: &SlotList) -> bool {
    usize::from(page.slots()) == list.slots.len()
        && page.change() == list.change
        && page.room() == list.room()
        && usize::from(page.free_number()) == list.free_number()
        && first_other(page, list).is_none()
}
