//! The next keys of a scan over keys alone: in a list, or written to places of the caller's.

ghost use Rattle.std.specs.Prelude.{IfOk, OnErr};
ghost use Rattle.table_scans.specs.Scans.{sight_of};
ghost use Rattle.table_scans.specs.Keys.{MeetsSomeKey, TakesKeys, TakesNextKeys, PutsKeys};

use crate::progress::KeyRange;
use heap_write::HeapState;
use std::alloc::{AllocError, Global};
use tuple_header::RowPlace;
use visibility::Reader;

/// The first keys of the range that show, up to a count, and what is left of the range.
fn first_keys(
    alloc: Global,
    heap: &HeapState,
    reader: &Reader<'_>,
    range: KeyRange,
    count: u16,
) -> Result<(Vec<u64>, KeyRange), AllocError>
    ensures taken { IfOk result (λ taken.
        TakesKeys (sight_of heap.now reader.now) range taken.1 count taken.0.items) }
    ensures refused { OnErr result (MeetsSomeKey (sight_of heap.now reader.now) range) }
{
    let mut keys = Vec::new(alloc);
    let mut left = range;
    for _ in 0..count {
        match heap.next_key(&left.span(), reader) {
            Some(position) => {
                keys.push(position.key)?;
                left.last = Some(position);
            }
            None => return Ok((keys, left)),
        }
    }
    Ok((keys, left))
}

/// The next `n` keys of the range that show, where 0 counts as 1, or all, and what is left of it behind them; none where nothing is left.
/// A key shows by an entry that leads to a page which is noted as all-visible, and is not looked at, or to a row that the reader sees.
/// Memory is refused only where there is a key to hand out.
pub fn take_keys(
    alloc: Global,
    heap: &HeapState,
    reader: &Reader<'_>,
    range: KeyRange,
    n: u16,
) -> Result<Option<(Vec<u64>, KeyRange)>, AllocError>
    ensures taken { IfOk result (TakesNextKeys (sight_of heap.now reader.now) range n) }
    ensures refused { OnErr result (MeetsSomeKey (sight_of heap.now reader.now) range) }
{
    let (keys, left) = first_keys(alloc, heap, reader, range, n.max(1))?;
    if keys.is_empty() {
        return Ok(None);
    }
    Ok(Some((keys, left)))
}

/// Writes the next keys of the range that show to the first places, as many as there are places or all that are left. It answers how
/// many there are, and what is left behind them. All else in the places stays. It takes no memory.
pub(crate) fn put_keys(
    heap: &HeapState,
    reader: &Reader<'_>,
    range: KeyRange,
    places: &mut [RowPlace],
) -> (usize, KeyRange)
    ensures { PutsKeys (sight_of heap.now reader.now) range places.old
        result.0 result.1 places.new }
{
    let mut left = range;
    for count in 0..places.len() {
        match heap.next_key(&left.span(), reader) {
            Some(position) => {
                places[count].key = position.key;
                left.last = Some(position);
            }
            None => return (count, left),
        }
    }
    (places.len(), left)
}
