//! The steps of sessions that write no row and use no cursor.

ghost use Rattle.calls.specs.declared.step.Step.TheVariants as step;
ghost use Rattle.sandpiper_c.specs.Calls.{Does, DoesWithReply, TakesStep, TakesShowing, ShowsRow, row_found_in, Gets};

use c_handles::{CallStatus, Held, Sandpiper};
use session_core::{RowPlace, Step};
use std::alloc::Global;

/// Does the step on what is held.
pub(crate) fn held_step(held: &mut Held, step: Step) -> u32
    ensures { TakesStep held.old step held.new.reply result held.new }
{
    held.engine.step_into(step, &mut held.reply);
    CallStatus::of_reply(&held.reply).number()
}

/// Does the step on what is held: by a call of its own where it has one that makes no reply.
#[inline(always)]
fn held_direct(held: &mut Held, step: Step) -> u32
    ensures { DoesWithReply held.old step result held.new }
{
    let answer = match step {
        Step::Begin(s) => held.engine.begin(s),
        Step::Delete(s, key) => held.engine.delete(s, key),
        Step::Commit(s) => held.engine.commit(s),
        Step::Abort(s) => held.engine.abort(s),
        step => return held_step(held, step),
    };
    CallStatus::of_answer(answer).number()
}

/// Does the step, if the handle has an engine.
#[inline(always)]
pub(crate) fn do_step(alloc: Global, table: &mut Sandpiper, step: Step) -> u32
    ensures { Does table.old step result table.new }
{
    match table.take(alloc) {
        Some(mut held) => {
            let code = held_direct(&mut held, step);
            table.put(held);
            code
        }
        None => CallStatus::NoEngine.number(),
    }
}

/// The session reads the row of a key, which is written to C's place. (It speaks of the engine that is held, its export of the handle.)
fn held_get(held: &mut Held, session: u8, key: u64, row: &mut RowPlace) -> u32
    ensures { TakesShowing held.old (step.Get session key) result held.new
        (λ reply. ShowsRow (row_found_in reply) row.old row.new) }
{
    CallStatus::of_found(held.engine.get(session, key, row)).number()
}

/// Opens the session: it reads what was committed by now.
#[unsafe(no_mangle)]
pub extern "C" fn sandpiper_begin(alloc: Global, table: &mut Sandpiper, session: u8) -> u32
    ensures { Does table.old (step.Begin session) result table.new }
{
    do_step(alloc, table, Step::Begin(session))
}

/// Opens the session: each of its statements reads what was committed by then.
#[unsafe(no_mangle)]
pub extern "C" fn sandpiper_begin_read_committed(
    alloc: Global,
    table: &mut Sandpiper,
    session: u8,
) -> u32
    ensures { Does table.old (step.BeginReadCommitted session) result table.new }
{
    do_step(alloc, table, Step::BeginReadCommitted(session))
}

/// Reads the row of the key, and writes it to `row`, if there is one.
#[unsafe(no_mangle)]
pub extern "C" fn sandpiper_get(
    alloc: Global,
    table: &mut Sandpiper,
    session: u8,
    key: u64,
    row: &mut RowPlace,
) -> u32
    ensures { Gets table.old session key row.old result row.new table.new }
{
    match table.take(alloc) {
        Some(mut held) => {
            let code = held_get(&mut held, session, key, row);
            table.put(held);
            code
        }
        None => CallStatus::NoEngine.number(),
    }
}

/// Takes the row of the key away.
#[unsafe(no_mangle)]
pub extern "C" fn sandpiper_delete(
    alloc: Global,
    table: &mut Sandpiper,
    session: u8,
    key: u64,
) -> u32
    ensures { Does table.old (step.Delete session key) result table.new }
{
    do_step(alloc, table, Step::Delete(session, key))
}

/// Sets a savepoint, above those that the session has: at most 32.
#[unsafe(no_mangle)]
pub extern "C" fn sandpiper_savepoint(alloc: Global, table: &mut Sandpiper, session: u8) -> u32
    ensures { Does table.old (step.Savepoint session) result table.new }
{
    do_step(alloc, table, Step::Savepoint(session))
}

/// Takes back what the session wrote since its newest savepoint, which stays.
#[unsafe(no_mangle)]
pub extern "C" fn sandpiper_rollback_to(alloc: Global, table: &mut Sandpiper, session: u8) -> u32
    ensures { Does table.old (step.RollbackTo session) result table.new }
{
    do_step(alloc, table, Step::RollbackTo(session))
}

/// Forgets the newest savepoint, and keeps what the session wrote since.
#[unsafe(no_mangle)]
pub extern "C" fn sandpiper_release(alloc: Global, table: &mut Sandpiper, session: u8) -> u32
    ensures { Does table.old (step.Release session) result table.new }
{
    do_step(alloc, table, Step::Release(session))
}

/// Makes what the session wrote part of the history, unless it has failed, and closes it.
#[unsafe(no_mangle)]
pub extern "C" fn sandpiper_commit(alloc: Global, table: &mut Sandpiper, session: u8) -> u32
    ensures { Does table.old (step.Commit session) result table.new }
{
    do_step(alloc, table, Step::Commit(session))
}

/// Drops what the session wrote, and closes it.
#[unsafe(no_mangle)]
pub extern "C" fn sandpiper_abort(alloc: Global, table: &mut Sandpiper, session: u8) -> u32
    ensures { Does table.old (step.Abort session) result table.new }
{
    do_step(alloc, table, Step::Abort(session))
}

/// Takes from a page, counted from 0, what nobody can see any more.
#[unsafe(no_mangle)]
pub extern "C" fn sandpiper_prune(alloc: Global, table: &mut Sandpiper, page: u32) -> u32
    ensures { Does table.old (step.Prune page) result table.new }
{
    do_step(alloc, table, Step::Prune(page))
}

/// Makes the index of a column, from 0 to 3, unless it is there. Its number is one more than the column's.
#[unsafe(no_mangle)]
pub extern "C" fn sandpiper_create_index(alloc: Global, table: &mut Sandpiper, column: u8) -> u32
    ensures { Does table.old (step.CreateIndex column) result table.new }
{
    do_step(alloc, table, Step::CreateIndex(column))
}
