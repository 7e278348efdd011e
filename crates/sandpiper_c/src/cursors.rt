//! Cursors, and the rows or keys that they hand out.

ghost use Rattle.std.specs.Prelude.{◌≡◌, pos};
ghost use Rattle.calls.specs.declared.step.Step.TheVariants as step;
ghost use Rattle.sandpiper_c.specs.Calls.{Does};
ghost use Rattle.sandpiper_c.specs.NextRows.{status_of_answer, count_of, HandsToPlaces, HandsOutNext};

use crate::steps::do_step;
use c_handles::{CallStatus, Held, Sandpiper};
use session_core::{Refusal, RowPlace, Step};
use std::alloc::Global;

/// Opens a cursor over all rows that the session reads.
#[unsafe(no_mangle)]
pub extern "C" fn sandpiper_open_heap(alloc: Global, table: &mut Sandpiper, session: u8) -> u32
    ensures { Does table.old (step.OpenHeap session) result table.new }
{
    do_step(alloc, table, Step::OpenHeap(session))
}

/// Opens a cursor over the rows that the session reads whose keys lie within two bounds, both included.
#[unsafe(no_mangle)]
pub extern "C" fn sandpiper_open_by_key(
    alloc: Global,
    table: &mut Sandpiper,
    session: u8,
    low: u64,
    high: u64,
) -> u32
    ensures { Does table.old (step.OpenIndex session 0 (pos low) (pos high)) result table.new }
{
    let step = Step::OpenIndex(session, 0, low as i128, high as i128);
    do_step(alloc, table, step)
}

/// Opens a cursor over the rows that the session reads whose value in an index lies within two bounds, both included. Index 0 is
/// by key, and index `c + 1` by column `c`.
#[unsafe(no_mangle)]
pub extern "C" fn sandpiper_open_index(
    alloc: Global,
    table: &mut Sandpiper,
    session: u8,
    index: u8,
    low: i64,
    high: i64,
) -> u32
    ensures { Does table.old (step.OpenIndex session index low high) result table.new }
{
    let step = Step::OpenIndex(session, index, low as i128, high as i128);
    do_step(alloc, table, step)
}

/// Opens a cursor over the keys alone, from one to another, both included, of the rows that the session reads.
#[unsafe(no_mangle)]
pub extern "C" fn sandpiper_open_keys(
    alloc: Global,
    table: &mut Sandpiper,
    session: u8,
    low: u64,
    high: u64,
) -> u32
    ensures { Does table.old (step.OpenKeys session (pos low) (pos high)) result table.new }
{
    let step = Step::OpenKeys(session, low as i128, high as i128);
    do_step(alloc, table, step)
}

/// What an answer is called.
fn status_of_answer(answer: Result<usize, Refusal>) -> CallStatus
    ensures { result ≡ status_of_answer answer }
{
    match answer {
        Ok(0) => CallStatus::End,
        Ok(_) => CallStatus::Rows,
        Err(refusal) => CallStatus::Refused(refusal),
    }
}

/// How many rows or keys an answer has.
fn count_of(answer: Result<usize, Refusal>) -> usize
    ensures { result ≡ count_of answer }
{
    match answer {
        Ok(count) => count,
        Err(_) => 0,
    }
}

/// Writes the next rows of the session's cursor, of which there are `count`. Nothing is done where there is no place.
fn held_next(held: &mut Held, session: u8, rows: &mut [RowPlace], count: &mut usize) -> u32
    ensures { HandsToPlaces held.old session rows.old result rows.new count.new held.new }
{
    *count = 0;
    if rows.is_empty() {
        return CallStatus::NoPlace.number();
    }
    let answer = held.engine.next_rows(session, rows);
    *count = count_of(answer);
    status_of_answer(answer).number()
}

/// Writes the next rows of the session's cursor to the first places of C's own, and their number to `count`. A cursor by an index
/// hands out as many as there are places, or all that are left. One over the heap hands out those of the next page that has any,
/// from where it is, up to so many. Of a cursor over keys the key of each place alone is written.
#[unsafe(no_mangle)]
pub extern "C" fn sandpiper_next(
    alloc: Global,
    table: &mut Sandpiper,
    session: u8,
    rows: &mut [RowPlace],
    count: &mut usize,
) -> u32
    ensures { HandsOutNext table.old session rows.old result rows.new count.new table.new }
{
    match table.take(alloc) {
        Some(mut held) => {
            let code = held_next(&mut held, session, rows, count);
            table.put(held);
            code
        }
        None => {
            *count = 0;
            CallStatus::NoEngine.number()
        }
    }
}

/// Closes the cursor.
#[unsafe(no_mangle)]
pub extern "C" fn sandpiper_close_cursor(alloc: Global, table: &mut Sandpiper, session: u8) -> u32
    ensures { Does table.old (step.Close session) result table.new }
{
    do_step(alloc, table, Step::Close(session))
}
