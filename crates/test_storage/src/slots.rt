//! Where versions and pointers stand in a page's bytes, each number reckoned by hand.

use crate::steps::{Step, run};
use arrayvec::ArrayVec;
use page_slots::Page;
use std::alloc::{AllocError, Global};
use std::test::Fail;
use tuple_header::{Header, Row, Tuple};
use xid_circle::{Tid, Xid};

/// What is done to a page, or asked of it.
#[derive(Clone, Copy)]
enum PageStep {
    /// A version is added, of this key and with a body of so many bytes, and gets this number.
    Add(u8, usize, u16),
    SetDead(u16),
    SetUnused(u16),
    SetFlag(bool),
    Room(usize),
    /// How often a slot was changed.
    Change(u64),
    /// The version in a slot begins there, and has so many bytes.
    Place(u16, u16, u16),
    NoPlace(u16),
    /// What the eight bytes of the page from a place on are.
    Bytes(usize, [u8; 8]),
}

/// A version of this key, with a body of so many bytes, each of which is the key.
fn version(key: u8, length: usize) -> Tuple {
    let mut body = ArrayVec::new();
    for _ in 0..length {
        let _ = body.try_push(key);
    }
    Tuple {
        header: Header::new(Xid(3), Tid { page: 0, slot: 1 }),
        row: Row {
            key: u64::from(key),
            cols: [5, 0, -1, -2],
            body,
        },
    }
}

// Each of these calls what it is named after where that may be called, and promises nothing.

fn add(page: &mut Page, key: u8, length: usize) -> Option<u16> {
    page.add(version(key, length)).ok()
}

fn set_dead(page: &mut Page, number: u16) {
    if 1 <= number && number <= page.slots() {
        page.set_dead(number);
    }
}

fn set_unused(page: &mut Page, number: u16) {
    if 1 <= number && number <= page.slots() {
        page.set_unused(number);
    }
}

fn is_placed(page: &Page, number: u16, from: u16, length: u16) -> bool {
    page.place(number) == Some((from, length)) && is_read_from(page, number, from)
}

/// Whether the version in a slot is found at this byte and not at the one before it. It is of id 3, and nobody deleted it.
fn is_read_from(page: &Page, number: u16, from: u16) -> bool {
    let Some((header, row)) = page.version_from(number, from) else {
        return false;
    };
    let Some(undeleted) = page.undeleted_row(number, Xid(3)) else {
        return false;
    };
    header.xmin == Xid(3)
        && row.key() == undeleted.key()
        && page.version_from(number, from.wrapping_sub(1)).is_none()
        && page.undeleted_row(number, Xid(4)).is_none()
}

fn has_bytes(page: &Page, at: usize, expected: &[u8; 8]) -> bool {
    let bytes = page.bytes();
    if bytes.len() < 8 || at > bytes.len() - 8 {
        return false;
    }
    &bytes[at..at + 8] == expected.as_slice()
}

impl PageStep {
    /// What of a page is asked for.
    fn is_seen(self, page: &Page) -> bool {
        match self {
            PageStep::Room(room) => page.room() == room,
            PageStep::Change(change) => page.change() == change,
            PageStep::Place(number, from, length) => is_placed(page, number, from, length),
            PageStep::NoPlace(number) => page.place(number).is_none(),
            PageStep::Bytes(at, bytes) => has_bytes(page, at, &bytes),
            _ => false,
        }
    }
}

impl Step for PageStep {
    type Subject = Page;

    fn is_so(&self, _alloc: Global, page: &mut Page) -> Result<bool, AllocError> {
        match *self {
            PageStep::Add(key, length, number) => {
                return Ok(add(page, key, length) == Some(number));
            }
            PageStep::SetDead(number) => set_dead(page, number),
            PageStep::SetUnused(number) => set_unused(page, number),
            PageStep::SetFlag(flag) => page.set_flag(flag),
            _ => return Ok(self.is_seen(page)),
        }
        Ok(true)
    }
}

/// A version of 66 bytes, which is then marked dead.
static BYTES: [PageStep; 17] = [
    PageStep::Add(1, 0, 1),
    // the change number; then no checksum, no flag, 28 and 8120; then 8192, 8196 and no id
    PageStep::Bytes(0, [1, 0, 0, 0, 0, 0, 0, 0]),
    PageStep::Bytes(8, [0, 0, 0, 0, 0x1c, 0, 0xb8, 0x1f]),
    PageStep::Bytes(16, [0, 0x20, 4, 0x20, 0, 0, 0, 0]),
    // 8120, normal, 66
    PageStep::Bytes(24, [0xb8, 0x9f, 0x84, 0, 0, 0, 0, 0]),
    PageStep::Place(1, 8120, 66),
    // the inserter, and behind the header the key
    PageStep::Bytes(8120, [3, 0, 0, 0, 0, 0, 0, 0]),
    PageStep::Bytes(8144, [1, 0, 0, 0, 0, 0, 0, 0]),
    PageStep::NoPlace(0),
    PageStep::NoPlace(2),
    PageStep::SetFlag(true),
    PageStep::Bytes(8, [0, 0, 4, 0, 0x1c, 0, 0xb8, 0x1f]),
    PageStep::SetDead(1),
    PageStep::NoPlace(1),
    // the gap reaches to the page's end, and the pointer is that of a dead slot
    PageStep::Bytes(0, [2, 0, 0, 0, 0, 0, 0, 0]),
    PageStep::Bytes(8, [0, 0, 4, 0, 0x1c, 0, 0, 0x20]),
    PageStep::Bytes(24, [0, 0x80, 1, 0, 0, 0, 0, 0]),
];

#[test]
fn bytes_of_a_page(rt: HostRuntime) -> Result<(), Fail> {
    run(rt.alloc(), Page::new(), &BYTES)
}

/// Seven versions, without the third, and another in its place; then versions for which the gap is wide enough.
static COMPACTION: [PageStep; 41] = [
    PageStep::Add(1, 1024, 1),
    PageStep::Add(2, 1024, 2),
    PageStep::Add(3, 1024, 3),
    PageStep::Add(4, 1024, 4),
    PageStep::Add(5, 1024, 5),
    PageStep::Add(6, 1024, 6),
    PageStep::Add(7, 1024, 7),
    // each takes 1096 bytes, from 8192 down
    PageStep::Place(1, 7096, 1090),
    PageStep::Place(2, 6000, 1090),
    PageStep::Place(3, 4904, 1090),
    PageStep::Place(4, 3808, 1090),
    PageStep::Place(5, 2712, 1090),
    PageStep::Place(6, 1616, 1090),
    PageStep::Place(7, 520, 1090),
    PageStep::SetUnused(3),
    PageStep::Room(1564),
    // no version is moved before there is need
    PageStep::Place(7, 520, 1090),
    PageStep::Add(8, 1024, 3),
    PageStep::Place(1, 7096, 1090),
    PageStep::Place(2, 6000, 1090),
    PageStep::Place(4, 4904, 1090),
    PageStep::Place(5, 3808, 1090),
    PageStep::Place(6, 2712, 1090),
    PageStep::Place(7, 1616, 1090),
    PageStep::Place(3, 520, 1090),
    PageStep::Change(9),
    // no version is moved, since the gap of 468 bytes suffices for 72, and that of 396 for 272 and a pointer of 4
    PageStep::SetUnused(2),
    PageStep::Add(9, 0, 2),
    PageStep::Place(3, 520, 1090),
    PageStep::Place(2, 448, 66),
    PageStep::Add(10, 200, 8),
    PageStep::Place(3, 520, 1090),
    PageStep::Place(2, 448, 66),
    PageStep::Place(8, 176, 266),
    // nor does a slot that turns dead move one; then a gap of 120 bytes suffices for 120
    PageStep::SetDead(6),
    PageStep::SetUnused(8),
    PageStep::Add(11, 54, 8),
    PageStep::Place(3, 520, 1090),
    PageStep::Place(7, 1616, 1090),
    PageStep::Place(8, 56, 120),
    PageStep::Change(15),
];

#[test]
fn versions_are_moved_together(rt: HostRuntime) -> Result<(), Fail> {
    run(rt.alloc(), Page::new(), &COMPACTION)
}
