//! Versions whose bytes were written down by hand.

use arrayvec::ArrayVec;
use tuple_header::TupleFault::{Attributes, Cid, Ctid, Hoff, Length, Masks, Padding, Xmax, Xmin};
use tuple_header::{Header, Row, Tuple, TupleFault, decode, encode};
use xid_circle::{Tid, Xid};

/// Made by id 3 at slot 1 of page 0: key 1, columns 5, 0, 0, 0, no body.
static FIRST: [u8; 66] = [
    3, 0, 0, 0, 0, 0, 0, 0, 0, 0, 0, 0, 0, 0, 0, 0, 1, 0, 6, 0, 0, 8, 24, 0, 1, 0, 0, 0, 0, 0, 0,
    0, 5, 0, 0, 0, 0, 0, 0, 0, 0, 0, 0, 0, 0, 0, 0, 0, 0, 0, 0, 0, 0, 0, 0, 0, 0, 0, 0, 0, 0, 0, 0,
    0, 0, 0,
];

/// A row of this key with these columns and a body of so many bytes.
fn row(key: u64, cols: [i64; 4], length: usize) -> Row {
    let mut body = ArrayVec::new();
    for _ in 0..length {
        let _ = body.try_push(170);
    }
    Row { key, cols, body }
}

fn first() -> Tuple {
    Tuple {
        header: Header::new(Xid(3), Tid { page: 0, slot: 1 }),
        row: row(1, [5, 0, 0, 0], 0),
    }
}

/// A version of a high page, with a negative column and a body of one byte.
fn high() -> Tuple {
    let place = Tid {
        page: 131075,
        slot: 258,
    };
    Tuple {
        header: Header::new(Xid(3), place),
        row: row(1, [5, 0, 0, -2], 1),
    }
}

/// The version's bytes, and then sevens.
fn bytes_of(version: &Tuple) -> [u8; 1090] {
    let mut out = [7; 1090];
    version.is_version();
    encode(version, &mut out);
    out
}

/// What stands in the bytes of the second version.
static HIGH: [(usize, u8); 14] = [
    (12, 2),
    (13, 0),
    (14, 3),
    (15, 0),
    (16, 2),
    (17, 1),
    (56, 254),
    (57, 255),
    (63, 255),
    (64, 1),
    (65, 0),
    (66, 170),
    (67, 7),
    (1089, 7),
];

fn stand_in(bytes: &[u8], parts: &[(usize, u8)]) -> bool {
    for (place, byte) in parts {
        if bytes.get(*place).copied() != Some(*byte) {
            return false;
        }
    }
    true
}

#[test]
fn bytes_of_versions(rt: HostRuntime) {
    assert!(rt; bytes_of(&first()).starts_with(&FIRST));
    assert!(rt; stand_in(&bytes_of(&first()), &[(66, 7), (1089, 7)]));
    assert!(rt; stand_in(&bytes_of(&high()), &HIGH));
}

fn decode_row(bytes: &[u8]) -> Result<Tuple, TupleFault> {
    decode(bytes)
}

/// Changes the byte at this place, if there is one.
fn put(bytes: &mut [u8], place: usize, value: u8) {
    if place < bytes.len() {
        bytes[place] = value;
    }
}

/// Each change leaves the earlier ones, which are named later.
static CHANGES: [(usize, u8, TupleFault); 9] = [
    (16, 0, Ctid),
    (4, 1, Xmax),
    (0, 2, Xmin),
    (20, 1, Masks),
    (18, 5, Attributes),
    (23, 1, Padding),
    (8, 1, Cid),
    (22, 23, Hoff),
    (64, 1, Length),
];

/// The first change after which another fault is named than the one beside it.
fn first_other(changes: &[(usize, u8, TupleFault)]) -> Option<usize> {
    let mut bytes = FIRST;
    for (place, value, fault) in changes {
        put(&mut bytes, *place, *value);
        if decode_row(&bytes) != Err(*fault) {
            return Some(*place);
        }
    }
    None
}

/// Each is the only change.
static FAULTS: [(usize, u8, TupleFault); 7] = [
    (65, 4, Length),
    (19, 8, Masks),
    (21, 12, Masks),
    (21, 0, Xmax),
    (19, 64, Xmax),
    (4, 2, Xmax),
    (17, 2, Ctid),
];

#[test]
fn bytes_are_read_or_a_fault_is_named(rt: HostRuntime) {
    assert_eq!(rt; decode_row(&FIRST), Ok(first()));
    assert_eq!(rt; decode_row(&FIRST[..65]), Err(Length));
    assert_eq!(rt; first_other(&CHANGES), None);
    for change in &FAULTS {
        assert_eq!(rt; first_other(&[*change]), None);
    }
}
