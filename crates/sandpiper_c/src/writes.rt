//! The steps that write a row.

ghost use Rattle.std.specs.Prelude.{◌≡◌, ◌<◌, ◌≤◌};
ghost use Rattle.tuple_header.specs.declared.version.TheConstants.{MOST_BODY};
ghost use Rattle.calls.specs.declared.step.Step.TheVariants as step;
ghost use Rattle.sandpiper_c.specs.Calls.{DoesWithReply, Writes, write_of};
ghost use Rattle.sandpiper_c.specs.Rows.{text_within};

use crate::rows;
use crate::steps::do_step;
use c_handles::{CallStatus, Held, Sandpiper};
use session_core::{Refusal, RowIn, RowPlace, Step};
use std::alloc::Global;
use tuple_header::MOST_BODY;

/// Which step writes a row.
#[derive(Clone, Copy)]
pub enum WriteKind {
    Insert,
    Update,
}

/// The step of a row.
fn step_of(kind: WriteKind, session: u8, text: RowIn) -> Step
    ensures { result ≡ write_of kind session text }
{
    match kind {
        WriteKind::Insert => Step::Insert(session, text),
        WriteKind::Update => Step::Update(session, text),
    }
}

/// Writes a row whose length is over 1024 by its step, which is refused.
fn write_too_large(
    alloc: Global,
    table: &mut Sandpiper,
    kind: WriteKind,
    session: u8,
    row: &RowPlace,
) -> u32
    requires { MOST_BODY < row.now.length }
    ensures { Writes table.old (write_of kind session) row.now result table.new }
{
    match rows::too_large(alloc, row) {
        Ok(text) => do_step(alloc, table, step_of(kind, session, text)),
        Err(_) => CallStatus::Refused(Refusal::NoMemory).number(),
    }
}

/// Writes a row by what is held, where it is copied to first: no memory is asked for.
#[inline(always)]
fn held_write(held: &mut Held, kind: WriteKind, session: u8, row: &RowPlace) -> u32
    requires { row.now.length ≤ MOST_BODY }
    ensures { DoesWithReply held.old (write_of kind session (text_within row.now)) result held.new }
{
    rows::fill(&mut held.row, row);
    let answer = match kind {
        WriteKind::Insert => held.engine.insert(session, &held.row),
        WriteKind::Update => held.engine.update(session, &held.row),
    };
    CallStatus::of_answer(answer).number()
}

/// Writes a row.
#[inline(always)]
pub(crate) fn write(
    alloc: Global,
    table: &mut Sandpiper,
    kind: WriteKind,
    session: u8,
    row: &RowPlace,
) -> u32
    ensures { Writes table.old (write_of kind session) row.now result table.new }
{
    if row.length as usize > MOST_BODY {
        return write_too_large(alloc, table, kind, session, row);
    }
    match table.take(alloc) {
        Some(mut held) => {
            let code = held_write(&mut held, kind, session, row);
            table.put(held);
            code
        }
        None => CallStatus::NoEngine.number(),
    }
}

/// Writes a row of a key that has none.
#[unsafe(no_mangle)]
pub extern "C" fn sandpiper_insert(
    alloc: Global,
    table: &mut Sandpiper,
    session: u8,
    row: &RowPlace,
) -> u32
    ensures { Writes table.old (λ text. step.Insert session text) row.now result table.new }
{
    write(alloc, table, WriteKind::Insert, session, row)
}

/// Writes another row of a key that has one.
#[unsafe(no_mangle)]
pub extern "C" fn sandpiper_update(
    alloc: Global,
    table: &mut Sandpiper,
    session: u8,
    row: &RowPlace,
) -> u32
    ensures { Writes table.old (λ text. step.Update session text) row.now result table.new }
{
    write(alloc, table, WriteKind::Update, session, row)
}
