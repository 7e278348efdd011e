//! The steps that write a row, one after another.

ghost use Rattle.calls.specs.declared.step.Step.TheVariants as step;
ghost use Rattle.sandpiper_c.specs.Calls.{write_of};
ghost use Rattle.sandpiper_c.specs.Many.{WritesMany};

use crate::writes::{WriteKind, write};
use c_handles::{CallStatus, Sandpiper};
use session_core::RowPlace;
use std::alloc::Global;

/// Writes rows one after another, up to the first that is refused. `done` says how many were written.
fn write_many(
    alloc: Global,
    table: &mut Sandpiper,
    kind: WriteKind,
    session: u8,
    rows: &[RowPlace],
    done: &mut usize,
) -> u32
    ensures { WritesMany (write_of kind session) table.old rows.now done.new result table.new }
{
    for number in 0..rows.len() {
        let code = write(alloc, table, kind, session, &rows[number]);
        if code != CallStatus::Done.number() {
            *done = number;
            return code;
        }
    }
    *done = rows.len();
    CallStatus::Done.number()
}

/// Writes rows of keys that have none, one after another, up to the first that is refused. `done` says how many were written.
#[unsafe(no_mangle)]
pub extern "C" fn sandpiper_insert_many(
    alloc: Global,
    table: &mut Sandpiper,
    session: u8,
    rows: &[RowPlace],
    done: &mut usize,
) -> u32
    ensures { WritesMany (λ text. step.Insert session text) table.old rows.now
        done.new result table.new }
{
    write_many(alloc, table, WriteKind::Insert, session, rows, done)
}

/// Writes other rows of keys that have one, one after another, up to the first that is refused. `done` says how many were written.
#[unsafe(no_mangle)]
pub extern "C" fn sandpiper_update_many(
    alloc: Global,
    table: &mut Sandpiper,
    session: u8,
    rows: &[RowPlace],
    done: &mut usize,
) -> u32
    ensures { WritesMany (λ text. step.Update session text) table.old rows.now
        done.new result table.new }
{
    write_many(alloc, table, WriteKind::Update, session, rows, done)
}
