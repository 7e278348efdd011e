//! Sets of entries, each reckoned by hand.

use crate::steps::{Step, run};
use dead_places::DeadSet;
use root_index::{Entry, PositionHint, Progress, RootIndex};
use std::alloc::{AllocError, Global};
use std::test::Fail;
use xid_circle::Tid;

/// The value, the key, the page and the slot of an entry.
type Parts = (i128, u64, u32, u16);

/// What is done to an index, or asked of it.
#[derive(Clone, Copy)]
enum IndexStep {
    /// So many more entries are to take no memory.
    MakeRoom(usize),
    /// That is refused.
    NoRoomFor(usize),
    Insert(Parts),
    /// Such an entry can't be in the index.
    NotFor(Parts),
    /// It is widened for this value and this key.
    Widen(i128, u64),
    /// The first entry behind this one, or of all, is that one, or there is none.
    Next(Option<Parts>, Option<Parts>),
    /// Entries are inserted, from this key on so many, and each key is so far behind the one before; after 29999 comes 0.
    InsertRun(u16, u16, u16),
    /// A piece of a removal of none, behind an entry, comes so far, or to the end.
    Piece(Option<Parts>, Option<Parts>),
    Count(u64),
}

fn entry((value, key, page, slot): Parts) -> Entry {
    Entry {
        value,
        key,
        tid: Tid { page, slot },
    }
}

fn parts(entry: Entry) -> Parts {
    (entry.value, entry.key, entry.tid.page, entry.tid.slot)
}

/// The entry of this key, of the same value and for the page of this number.
fn entry_of_key(key: u32) -> Entry {
    entry((i128::from(key), u64::from(key), key, 1))
}

/// The key of this number in a run.
fn key_of(first: u16, number: u16, stride: u16) -> u32 {
    (u32::from(first) + u32::from(number) * u32::from(stride)) % 30000
}

/// Inserts an entry, and says whether it can be in the index.
fn insert(index: &mut RootIndex, entry: Entry) -> Result<bool, AllocError> {
    if !index.fits(&entry) {
        return Ok(false);
    }
    index.insert(entry)?;
    Ok(true)
}

fn insert_run(
    index: &mut RootIndex,
    first: u16,
    count: u16,
    stride: u16,
) -> Result<bool, AllocError> {
    for number in 0..count {
        if !insert(index, entry_of_key(key_of(first, number, stride)))? {
            return Ok(false);
        }
    }
    Ok(true)
}

/// How far a piece of a removal comes that removes nothing.
fn piece_end(index: &mut RootIndex, from: Option<Parts>) -> Option<Parts> {
    let near = PositionHint::default();
    match index.remove_where(&DeadSet::new(), from.map(entry), near).0 {
        Progress::More(last) => Some(parts(last)),
        Progress::Done => None,
    }
}

impl Step for IndexStep {
    type Subject = RootIndex;

    fn is_so(&self, _alloc: Global, index: &mut RootIndex) -> Result<bool, AllocError> {
        match *self {
            IndexStep::MakeRoom(count) => index.make_room(count)?,
            IndexStep::NoRoomFor(count) => return Ok(index.make_room(count).is_err()),
            IndexStep::Insert(parts) => return insert(index, entry(parts)),
            IndexStep::InsertRun(first, count, stride) => {
                return insert_run(index, first, count, stride);
            }
            IndexStep::Widen(value, key) => index.widen_for(value, key)?,
            IndexStep::NotFor(parts) => return Ok(!index.fits(&entry(parts))),
            IndexStep::Next(from, next) => {
                return Ok(index.next_after(from.map(entry)).map(parts) == next);
            }
            IndexStep::Piece(from, last) => return Ok(piece_end(index, from) == last),
            IndexStep::Count(count) => return Ok(index.len() == count),
        }
        Ok(true)
    }
}

/// How far a key is behind the next one.
const DOWN: u16 = 29999;

/// Of a full leaf of 128 and one more the first 64 stay, of which the new one may be one. A piece that removes nothing goes
/// as far as its leaf.
static LEAVES_UPWARD: [IndexStep; 5] = [
    IndexStep::InsertRun(1, 300, 1),
    IndexStep::Piece(None, Some((64, 64, 64, 1))),
    IndexStep::Piece(Some((64, 64, 64, 1)), Some((128, 128, 128, 1))),
    IndexStep::Piece(Some((128, 128, 128, 1)), Some((192, 192, 192, 1))),
    IndexStep::Piece(Some((192, 192, 192, 1)), None),
];

/// From 193 down to 1.
static LEAVES_DOWNWARD: [IndexStep; 3] = [
    IndexStep::InsertRun(193, 193, DOWN),
    IndexStep::Piece(None, Some((128, 128, 128, 1))),
    IndexStep::Piece(Some((128, 128, 128, 1)), None),
];

/// The even keys, and one between the 63rd and the 64th.
static NEW_ENTRY_IN_THE_FIRST_LEAF: [IndexStep; 4] = [
    IndexStep::InsertRun(0, 128, 2),
    IndexStep::Insert((125, 125, 125, 1)),
    IndexStep::Piece(None, Some((125, 125, 125, 1))),
    IndexStep::Piece(Some((125, 125, 125, 1)), None),
];

/// The even keys, and one between the 64th and the 65th.
static NEW_ENTRY_IN_THE_SECOND_LEAF: [IndexStep; 4] = [
    IndexStep::InsertRun(0, 128, 2),
    IndexStep::Insert((127, 127, 127, 1)),
    IndexStep::Piece(None, Some((126, 126, 126, 1))),
    IndexStep::Piece(Some((126, 126, 126, 1)), None),
];

#[test]
fn of_a_full_leaf_and_one_more_the_first_64_stay(rt: HostRuntime) -> Result<(), Fail> {
    run(rt.alloc(), RootIndex::new(rt.alloc()), &LEAVES_UPWARD)?;
    run(rt.alloc(), RootIndex::by_key(rt.alloc()), &LEAVES_UPWARD)?;
    run(rt.alloc(), RootIndex::narrow(rt.alloc()), &LEAVES_DOWNWARD)?;
    run(
        rt.alloc(),
        RootIndex::by_key(rt.alloc()),
        &NEW_ENTRY_IN_THE_FIRST_LEAF,
    )?;
    run(
        rt.alloc(),
        RootIndex::new(rt.alloc()),
        &NEW_ENTRY_IN_THE_SECOND_LEAF,
    )
}

/// The least and the greatest key, and the greatest place.
static KEYS: [IndexStep; 6] = [
    IndexStep::Insert((18446744073709551615, 18446744073709551615, 65535, 65535)),
    IndexStep::Insert((0, 0, 0, 1)),
    IndexStep::NotFor((1, 2, 0, 1)),
    IndexStep::NotFor((1, 1, 65536, 1)),
    IndexStep::Next(None, Some((0, 0, 0, 1))),
    IndexStep::Next(
        Some((0, 0, 0, 1)),
        Some((18446744073709551615, 18446744073709551615, 65535, 65535)),
    ),
];

/// The least and the greatest value of a column, and two of one value.
static VALUES: [IndexStep; 10] = [
    IndexStep::Insert((9223372036854775807, 3, 1, 1)),
    IndexStep::Insert((-1, 18446744073709551615, 65535, 65535)),
    IndexStep::Insert((-1, 5, 2, 7)),
    IndexStep::Insert((-9223372036854775808, 4, 0, 9)),
    IndexStep::NotFor((9223372036854775808, 3, 1, 1)),
    IndexStep::NotFor((-9223372036854775809, 3, 1, 1)),
    IndexStep::Next(None, Some((-9223372036854775808, 4, 0, 9))),
    IndexStep::Next(Some((-2, 0, 0, 0)), Some((-1, 5, 2, 7))),
    IndexStep::Next(
        Some((-1, 5, 2, 7)),
        Some((-1, 18446744073709551615, 65535, 65535)),
    ),
    IndexStep::Next(
        Some((-1, 18446744073709551615, 65535, 65535)),
        Some((9223372036854775807, 3, 1, 1)),
    ),
];

/// The least and the greatest value of 32 bits, and the greatest key, with a leaf of others between them; and then any values and keys.
static NARROW: [IndexStep; 19] = [
    IndexStep::NotFor((2147483648, 1, 0, 1)),
    IndexStep::NotFor((-2147483649, 1, 0, 1)),
    IndexStep::NotFor((1, 4294967296, 0, 1)),
    IndexStep::Insert((2147483647, 4294967295, 65535, 65535)),
    IndexStep::InsertRun(1, 129, 1),
    IndexStep::Insert((-2147483648, 0, 0, 9)),
    IndexStep::Widen(-2147483648, 4294967295),
    IndexStep::NotFor((1, 4294967296, 0, 1)),
    IndexStep::Piece(None, Some((64, 64, 64, 1))),
    IndexStep::Widen(1, 4294967296),
    IndexStep::Insert((1, 4294967296, 0, 1)),
    IndexStep::Insert((9223372036854775807, 18446744073709551615, 1, 1)),
    IndexStep::Count(133),
    IndexStep::Next(None, Some((-2147483648, 0, 0, 9))),
    IndexStep::Next(Some((-2147483648, 0, 0, 9)), Some((1, 1, 1, 1))),
    IndexStep::Next(Some((1, 1, 1, 1)), Some((1, 4294967296, 0, 1))),
    IndexStep::Next(
        Some((129, 129, 129, 1)),
        Some((2147483647, 4294967295, 65535, 65535)),
    ),
    IndexStep::Next(
        Some((2147483647, 4294967295, 65535, 65535)),
        Some((9223372036854775807, 18446744073709551615, 1, 1)),
    ),
    IndexStep::Piece(None, Some((63, 63, 63, 1))),
];

#[test]
fn entries_are_read_as_they_were_inserted(rt: HostRuntime) -> Result<(), Fail> {
    run(rt.alloc(), RootIndex::by_key(rt.alloc()), &KEYS)?;
    run(rt.alloc(), RootIndex::new(rt.alloc()), &VALUES)?;
    run(rt.alloc(), RootIndex::narrow(rt.alloc()), &NARROW)
}

/// Also where any one allocation fails, the first entry and each split have their leaf.
static PROMISED: [IndexStep; 9] = [
    IndexStep::MakeRoom(1),
    IndexStep::Insert((0, 0, 0, 1)),
    IndexStep::InsertRun(1, 127, 1),
    IndexStep::MakeRoom(2),
    IndexStep::MakeRoom(1),
    IndexStep::Insert((200, 200, 200, 1)),
    IndexStep::Insert((300, 300, 300, 1)),
    IndexStep::NoRoomFor(usize::MAX),
    IndexStep::Count(130),
];

#[test]
fn promised_entries_take_no_memory(rt: HostRuntime) -> Result<(), Fail> {
    run(rt.alloc(), RootIndex::new(rt.alloc()), &PROMISED)?;
    run(rt.alloc(), RootIndex::narrow(rt.alloc()), &PROMISED)?;
    run(rt.alloc(), RootIndex::by_key(rt.alloc()), &PROMISED)
}
