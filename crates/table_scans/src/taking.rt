//! The next rows of a scan, in a list.

ghost use Rattle.std.specs.Prelude.{◌≡◌, ◌++◌, ◌∷◌, [], length, IfOk, OnOk, OnErr};
ghost use Rattle.table_scans.specs.declared.progress.Scan.TheVariants.{Index, Heap};
ghost use Rattle.table_scans.specs.Scans.{sight_of};
ghost use Rattle.table_scans.specs.Takes.{MeetsSome, TakesRows, TakesAll, TakesNextPage, TakesNext};

use crate::progress::{Scan, start_of};
use arrayvec::ArrayVec;
use heap_write::HeapState;
use index_lookup::{IndexRange, seen_row};
use std::alloc::{AllocError, Global};
use tuple_header::{COLUMNS, Row, RowRef};
use visibility::Reader;
use xid_circle::Tid;

/// For how many rows memory is asked for with the first, at most.
const AT_ONCE: usize = 128;

/// A row with an empty body, to be written over: it has over a kilobyte, and is made where it stays.
pub fn no_row() -> Row
    ensures { length result.body.items ≡ 0 }
{
    Row {
        key: 0,
        cols: [0; COLUMNS],
        body: ArrayVec::new(),
    }
}

/// Adds a copy of a row to those that are handed out, at most `most` in all.
fn add_row(rows: &mut Vec<Row>, row: &RowRef<'_>, most: u16) -> Result<(), AllocError>
    ensures { OnOk result (rows.new.items ≡ rows.old.items ++ row.now ∷ []) }
{
    // a row has over a kilobyte, and is copied whenever the list grows
    let more = if rows.is_empty() {
        usize::from(most).clamp(1, AT_ONCE)
    } else {
        1
    };
    rows.try_reserve(more)?;
    // and is written where it stays
    let place = rows.as_slice().len();
    rows.push_reserved(no_row());
    row.copy_to(&mut rows[place]);
    Ok(())
}

/// The next rows of the scan, and what is left of it behind them; none where nothing is left. Of an index they are the next `n`, where
/// 0 counts as 1, or all; of the heap all of the next page on which the reader sees any. Memory is refused only where there is a row
/// to hand out.
pub fn take_next(
    alloc: Global,
    heap: &HeapState,
    reader: &Reader<'_>,
    scan: Scan,
    n: u16,
) -> Result<Option<(Vec<Row>, Scan)>, AllocError>
    ensures taken { IfOk result (TakesNext (sight_of heap.now reader.now) scan n) }
    ensures refused { OnErr result (MeetsSome (sight_of heap.now reader.now) scan) }
{
    match scan {
        Scan::Index(range) => {
            let (rows, left) = take_rows(alloc, heap, reader, range, n.max(1))?;
            if rows.is_empty() {
                return Ok(None);
            }
            Ok(Some((rows, Scan::Index(left))))
        }
        Scan::Heap(from) => match rows_of_page(alloc, heap, reader, from)? {
            Some((rows, page)) => Ok(Some((rows, Scan::Heap(start_of(page + 1))))),
            None => Ok(None),
        },
    }
}

/// The first rows of the range that the reader sees, up to a count, and what is left of the range.
fn take_rows(
    alloc: Global,
    heap: &HeapState,
    reader: &Reader<'_>,
    range: IndexRange,
    count: u16,
) -> Result<(Vec<Row>, IndexRange), AllocError>
    ensures taken { IfOk result (λ taken.
        TakesRows (sight_of heap.now reader.now) range taken.1 count taken.0.items) }
    ensures refused { OnErr result (MeetsSome (sight_of heap.now reader.now) (Index range)) }
{
    let mut rows = Vec::new(alloc);
    let mut left = range;
    for _ in 0..count {
        match heap.next_row(&left, reader) {
            Some((position, row)) => {
                add_row(&mut rows, &row, count)?;
                left.last = Some(position);
            }
            None => return Ok((rows, left)),
        }
    }
    Ok((rows, left))
}

/// The rows of the first page from this place on, on which the reader sees any, and that page's number, below 65536.
fn rows_of_page(
    alloc: Global,
    heap: &HeapState,
    reader: &Reader<'_>,
    from: Tid,
) -> Result<Option<(Vec<Row>, u32)>, AllocError>
    ensures taken { IfOk result (TakesNextPage (sight_of heap.now reader.now) from) }
    ensures refused { OnErr result (MeetsSome (sight_of heap.now reader.now) (Heap from)) }
{
    let mut at = from;
    for page in from.page..heap.page_count() {
        let rows = rows_on(alloc, heap, reader, at)?;
        if !rows.is_empty() {
            return Ok(Some((rows, page)));
        }
        at = start_of(page + 1);
    }
    Ok(None)
}

/// The rows that the reader sees from this place on, up to the end of its page.
fn rows_on(
    alloc: Global,
    heap: &HeapState,
    reader: &Reader<'_>,
    from: Tid,
) -> Result<Vec<Row>, AllocError>
    ensures taken { IfOk result (λ rows.
        TakesAll (sight_of heap.now reader.now) from rows.items) }
    ensures refused { OnErr result (MeetsSome (sight_of heap.now reader.now) (Heap from)) }
{
    let mut rows = Vec::new(alloc);
    let Some(page) = heap.page(from.page) else {
        return Ok(rows);
    };
    let slots = page.slots();
    for slot in from.slot..slots + 1 {
        if let Some(row) = seen_row(page, slot, reader) {
            add_row(&mut rows, &row, slots)?;
        }
    }
    Ok(rows)
}
