//! The next rows or keys of a cursor, written to places of the caller's. Nothing here takes memory.

ghost use Rattle.std.specs.Prelude.{◌<◌, length};
ghost use Rattle.table_scans.specs.Scans.{sight_of};
ghost use Rattle.table_scans.specs.Puts.{PutsOfCursor, PutsNext, PutsOfIndex, PutsOfHeap, PutsOfPage};

use crate::keys::put_keys;
use crate::progress::{CursorScan, Scan, start_of};
use crate::seeing::seen_beside;
use heap_write::HeapState;
use index_lookup::IndexRange;
use tuple_header::RowPlace;
use visibility::Reader;
use xid_circle::Tid;

/// Writes the next rows of a cursor to the first places. It answers how many there are, and the rest of the cursor behind them.
/// There are none exactly where nothing is left. Of an index they are as many as there are places, or all. Of the heap they are
/// those of the next page on which the reader sees any, up to so many. Of a cursor over keys it writes keys, as many as there are
/// places, or all. Then all else in these places stays.
pub fn put_next(
    heap: &HeapState,
    reader: &Reader<'_>,
    cursor: CursorScan,
    places: &mut [RowPlace],
) -> (usize, CursorScan)
    requires { 0 < length places.old }
    ensures { PutsOfCursor (sight_of heap.now reader.now) cursor places.old
        result.0 result.1 places.new }
{
    match cursor {
        CursorScan::Rows(scan) => {
            let (count, left) = put_scan(heap, reader, scan, places);
            (count, CursorScan::Rows(left))
        }
        CursorScan::Keys(range) => {
            let (count, left) = put_keys(heap, reader, range, places);
            (count, CursorScan::Keys(left))
        }
    }
}

/// Writes the next rows of a scan.
fn put_scan(
    heap: &HeapState,
    reader: &Reader<'_>,
    scan: Scan,
    places: &mut [RowPlace],
) -> (usize, Scan)
    requires { 0 < length places.old }
    ensures { PutsNext (sight_of heap.now reader.now) scan places.old
        result.0 result.1 places.new }
{
    match scan {
        Scan::Index(range) => {
            let (count, left) = put_rows(heap, reader, range, places);
            (count, Scan::Index(left))
        }
        Scan::Heap(from) => {
            let (count, to) = put_page(heap, reader, from, places);
            (count, Scan::Heap(to))
        }
    }
}

/// Writes the first rows of the range that the reader sees, and answers how many there are, and what is left of the range.
fn put_rows(
    heap: &HeapState,
    reader: &Reader<'_>,
    range: IndexRange,
    places: &mut [RowPlace],
) -> (usize, IndexRange)
    ensures { PutsOfIndex (sight_of heap.now reader.now) range places.old
        result.0 result.1 places.new }
{
    let mut left = range;
    for count in 0..places.len() {
        match heap.next_row(&left, reader) {
            Some((position, row)) => {
                row.put_into(&mut places[count]);
                left.last = Some(position);
            }
            None => return (count, left),
        }
    }
    (places.len(), left)
}

/// Writes rows of the first page from this place on, on which the reader sees any, and answers how many there are, and the place
/// behind them.
fn put_page(
    heap: &HeapState,
    reader: &Reader<'_>,
    from: Tid,
    places: &mut [RowPlace],
) -> (usize, Tid)
    requires { 0 < length places.old }
    ensures { PutsOfHeap (sight_of heap.now reader.now) from places.old
        result.0 result.1 places.new }
{
    let mut at = from;
    for page in from.page..heap.page_count() {
        let (count, slot) = put_rows_on(heap, reader, at, places);
        if count > 0 {
            return (count, Tid { page, slot });
        }
        at = start_of(page + 1);
    }
    (0, at)
}

/// Writes the rows that the reader sees from this place on, up to the end of its page. It answers how many there are, and the number
/// of the slot behind them.
fn put_rows_on(
    heap: &HeapState,
    reader: &Reader<'_>,
    from: Tid,
    places: &mut [RowPlace],
) -> (usize, u16)
    requires { 0 < length places.old }
    ensures { PutsOfPage (sight_of heap.now reader.now) from places.old
        result.0 result.1 places.new }
{
    let Some(page) = heap.page(from.page) else {
        return (0, from.slot);
    };
    let end = page.slots() + 1;
    let mut count = 0;
    let mut counted = None;
    for slot in from.slot..end {
        if let Some(row) = seen_beside(page, slot, reader, &mut counted) {
            row.put_into(&mut places[count]);
            count += 1;
            if count == places.len() {
                return (count, slot + 1);
            }
        }
    }
    (count, from.slot.max(end))
}
