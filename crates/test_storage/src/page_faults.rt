//! Pages whose bytes were written down by hand, and what is named where some are changed.

use page_slots::PageFault::{BadPointer, BadRedirect, BadTuple, Bounds, Header, Length, Overlap};
use page_slots::{PageFault, check_page};

/// The header and the one pointer of a page. The header has change number 1, pd_lower 28, pd_upper 8120, and the size and
/// layout version. The pointer is to a version of 66 bytes at 8120.
static HEAD: [u8; 28] = [
    1, 0, 0, 0, 0, 0, 0, 0, 0, 0, 0, 0, 0x1c, 0, 0xb8, 0x1f, 0, 0x20, 4, 0x20, 0, 0, 0, 0, 0xb8,
    0x9f, 0x84, 0,
];

/// That version: made by id 3 at slot 1 of page 0, key 1, columns 5, 0, 0, 0, no body.
static VERSION: [u8; 66] = [
    3, 0, 0, 0, 0, 0, 0, 0, 0, 0, 0, 0, 0, 0, 0, 0, 1, 0, 6, 0, 0, 8, 24, 0, 1, 0, 0, 0, 0, 0, 0,
    0, 5, 0, 0, 0, 0, 0, 0, 0, 0, 0, 0, 0, 0, 0, 0, 0, 0, 0, 0, 0, 0, 0, 0, 0, 0, 0, 0, 0, 0, 0, 0,
    0, 0, 0,
];

/// A number of four bytes, and where it is written.
pub type Part = (usize, u32);

/// Writes these bytes from a place on, if they fit.
fn write(bytes: &mut [u8], place: usize, part: &[u8]) {
    if place <= bytes.len() && part.len() <= bytes.len() - place {
        bytes[place..place + part.len()].copy_from_slice(part);
    }
}

/// The page's bytes, but for these numbers.
pub fn page_with(parts: &[Part]) -> [u8; 8192] {
    let mut bytes = [0; 8192];
    write(&mut bytes, 0, &HEAD);
    write(&mut bytes, 8120, &VERSION);
    for (place, number) in parts {
        write(&mut bytes, *place, &number.to_le_bytes());
    }
    bytes
}

fn fault_of(bytes: &[u8]) -> Option<PageFault> {
    match check_page(bytes) {
        Ok(_page) => None,
        Err(fault) => Some(fault),
    }
}

/// What is named of these bytes without the last.
fn fault_without_last(bytes: &[u8]) -> Option<PageFault> {
    if bytes.is_empty() {
        return None;
    }
    fault_of(&bytes[..bytes.len() - 1])
}

/// pd_lower 32: there are two slots.
const SECOND: Part = (12, 0x1fb8_0020);

/// The page's first bytes as they are, where a row has place for more numbers than are changed.
const SAME: Part = (0, 1);

/// The numbers that are changed, and what is named then.
static FAULTS: [(Part, Part, Part, PageFault); 21] = [
    // flags 1
    ((8, 0x0001_0000), SAME, SAME, Header),
    // a checksum, another layout version, and an id to prune at
    ((8, 1), SAME, SAME, Header),
    ((16, 0x2003_2000), SAME, SAME, Header),
    ((20, 0x0100_0000), SAME, SAME, Header),
    // pd_lower 26, and pd_upper 8116, 8200 and 24
    ((12, 0x1fb8_001a), SAME, SAME, Bounds),
    ((12, 0x1fb4_001c), SAME, SAME, Bounds),
    ((12, 0x2008_001c), SAME, SAME, Bounds),
    ((12, 0x0018_001c), SAME, SAME, Bounds),
    // the header comes before the bounds
    ((8, 0x0001_0000), (12, 0x1fb8_001a), SAME, Header),
    // the pointer's offset 8128, its length 65, a dead slot with an offset, a redirect to a slot past the last
    ((24, 0x0084_9fc0), SAME, SAME, BadPointer(1)),
    ((24, 0x0082_9fb8), SAME, SAME, BadPointer(1)),
    ((24, 0x0001_8001), SAME, SAME, BadPointer(1)),
    ((24, 0x0001_0002), SAME, SAME, BadPointer(1)),
    // infomask 0: there is no deleter, and no mark of that
    ((8140, 0x0018_0000), SAME, SAME, BadTuple(1)),
    // a slot's pointer comes before its version, and a slot before the next
    ((24, 0x0084_9fc0), (8140, 0x0018_0000), SAME, BadPointer(1)),
    (SECOND, (28, 0x0084_8000), (8140, 0x0018_0000), BadTuple(1)),
    (SECOND, (28, 0x0084_8000), SAME, BadPointer(2)),
    // a redirect to itself, and one to a version that is not heap-only
    ((24, 0x0001_0001), SAME, SAME, BadRedirect(1)),
    (SECOND, (28, 0x0001_0001), SAME, BadRedirect(2)),
    // a second pointer equal to the first; redirects come before that
    (SECOND, (28, 0x0084_9fb8), SAME, Overlap(2)),
    (
        (12, 0x1fb8_0024),
        (28, 0x0084_9fb8),
        (32, 0x0001_0003),
        BadRedirect(3),
    ),
];

#[test]
fn first_fault_of_a_page(rt: HostRuntime) {
    assert_eq!(rt; fault_of(&page_with(&[])), None);
    assert_eq!(rt; fault_without_last(&page_with(&[])), Some(Length));
    for (first, second, third, fault) in &FAULTS {
        let parts = [*first, *second, *third];
        assert_eq!(rt; fault_of(&page_with(&parts)), Some(*fault));
    }
}

/// A heap-only version in slot 2, to which slot 1 leads.
pub static REDIRECTED: [Part; 4] = [
    SECOND,
    (24, 0x0001_0002),
    (28, 0x0084_9fb8),
    (8136, 0x8006_0001),
];
