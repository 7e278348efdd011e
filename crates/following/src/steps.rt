//! The history goes on by an answer that it allows. Each step has a function here, also where its session just stops to wait.

ghost use Rattle.std.specs.Prelude.{◌≡◌, OnOk, OnErr};
ghost use Rattle.refinement.specs.Allowed.{AllowsReply, after_reply};
ghost use Rattle.plain_history.specs.Plain.{world_of};
ghost use Rattle.history.specs.Moves.{change, with_savepoint, without_savepoint, with_write};
ghost use Rattle.plain_history.specs.Answers.{with_plain_cursor};
ghost use Rattle.calls.specs.Words.{FitsRow, row_of};
ghost use Rattle.following.specs.Following.{TakesMemory, TakesNoMemory, after_refused, with_wait};

use arrayvec::ArrayVec;
use calls::{Mode, Refusal, Reply, RowIn, Step, fill_row};
use plain_cursor::{Bounds, PlainOrder};
use plain_history::{PlainHistory, Refused};
use tuple_header::Row;

/// Memory was refused.
#[derive(Clone, Copy, Debug, PartialEq, Eq)]
pub struct NoMemory;

fn on_begin(plain: &mut PlainHistory, s: u8, reply: &Reply)
    requires { AllowsReply (world_of plain.old) (Step.Begin s) reply.now }
    ensures { world_of plain.new ≡ after_reply (world_of plain.old) (Step.Begin s) reply.now }
{
    match reply {
        Reply::Done => plain.start(s),
        _ => plain.end_wait(s),
    }
}

fn on_begin_read_committed(plain: &mut PlainHistory, s: u8, reply: &Reply)
    requires { AllowsReply (world_of plain.old) (Step.BeginReadCommitted s) reply.now }
    ensures { world_of plain.new
        ≡ after_reply (world_of plain.old) (Step.BeginReadCommitted s) reply.now }
{
    match reply {
        Reply::Done => plain.start_by_statement(s),
        _ => plain.end_wait(s),
    }
}

fn on_get(plain: &mut PlainHistory, s: u8, key: u64, reply: &Reply)
    requires { AllowsReply (world_of plain.old) (Step.Get s key) reply.now }
    ensures { world_of plain.new ≡ after_reply (world_of plain.old) (Step.Get s key) reply.now }
{
    plain.end_wait(s);
}

// A write that was refused.
fn on_refused_write(plain: &mut PlainHistory, s: u8, refusal: Refusal)
    ensures { world_of plain.new ≡ after_refused (world_of plain.old) s refusal }
{
    match refusal {
        Refusal::Deadlock => plain.refuse(s, Refused::Deadlock),
        _ => plain.refuse(s, Refused::By(refusal)),
    }
}

fn table_row(row: &RowIn) -> Row
    ensures { FitsRow row.now → result ≡ row_of row.now }
{
    let mut place = Row {
        key: row.key,
        cols: row.cols,
        body: ArrayVec::new(),
    };
    match fill_row(&mut place, row) {
        Ok(()) => place,
        Err(_) => place,
    }
}

// The session's own wait is this one.
fn restore(plain: &mut PlainHistory, s: u8, wait: Option<u8>)
    ensures { world_of plain.new ≡ with_wait (world_of plain.old) s wait }
{
    match wait {
        Some(o) => plain.wait_for(s, o),
        None => plain.end_wait(s),
    }
}

// Where memory is refused all is as it was.
fn put_row(plain: &mut PlainHistory, s: u8, row: Row) -> Result<(), NoMemory>
    ensures ok { OnOk result
        (world_of plain.new
        ≡ change (world_of plain.old) s (with_write plain.old.history row.key (Some row))) }
    ensures err { OnErr result (world_of plain.new ≡ world_of plain.old) }
{
    let wait = plain.wait_of(s);
    match plain.put_row(s, row) {
        Ok(()) => Ok(()),
        Err(_) => {
            restore(plain, s, wait);
            Err(NoMemory)
        }
    }
}

fn take_row(plain: &mut PlainHistory, s: u8, key: u64) -> Result<(), NoMemory>
    ensures ok { OnOk result
        (world_of plain.new
        ≡ change (world_of plain.old) s (with_write plain.old.history key None)) }
    ensures err { OnErr result (world_of plain.new ≡ world_of plain.old) }
{
    let wait = plain.wait_of(s);
    match plain.take_row(s, key) {
        Ok(()) => Ok(()),
        Err(_) => {
            restore(plain, s, wait);
            Err(NoMemory)
        }
    }
}

fn save(plain: &mut PlainHistory, s: u8) -> Result<(), NoMemory>
    ensures ok { OnOk result (world_of plain.new ≡ change (world_of plain.old) s with_savepoint) }
    ensures err { OnErr result (world_of plain.new ≡ world_of plain.old) }
{
    let wait = plain.wait_of(s);
    match plain.save(s) {
        Ok(()) => Ok(()),
        Err(_) => {
            restore(plain, s, wait);
            Err(NoMemory)
        }
    }
}

fn join(plain: &mut PlainHistory, s: u8) -> Result<(), NoMemory>
    ensures ok { OnOk result
        (world_of plain.new ≡ change (world_of plain.old) s without_savepoint) }
    ensures err { OnErr result (world_of plain.new ≡ world_of plain.old) }
{
    let wait = plain.wait_of(s);
    match plain.join(s) {
        Ok(()) => Ok(()),
        Err(_) => {
            restore(plain, s, wait);
            Err(NoMemory)
        }
    }
}

fn open(plain: &mut PlainHistory, s: u8, order: PlainOrder, bounds: Bounds) -> Result<(), NoMemory>
    ensures ok { OnOk result
        (world_of plain.new
        ≡ change (world_of plain.old) s (with_plain_cursor plain.old.history order bounds)) }
    ensures err { OnErr result (world_of plain.new ≡ world_of plain.old) }
{
    let wait = plain.wait_of(s);
    match plain.open(s, order, bounds) {
        Ok(()) => Ok(()),
        Err(_) => {
            restore(plain, s, wait);
            Err(NoMemory)
        }
    }
}

fn on_insert(plain: &mut PlainHistory, s: u8, row: &RowIn, reply: &Reply) -> Result<(), NoMemory>
    requires { AllowsReply (world_of plain.old) (Step.Insert s row.now) reply.now }
    ensures goes_on { OnOk result
        (world_of plain.new ≡ after_reply (world_of plain.old) (Step.Insert s row.now) reply.now) }
    ensures stays { OnErr result (world_of plain.new ≡ world_of plain.old) }
    ensures lacks { OnErr result (TakesMemory (Step.Insert s row.now) reply.now) }
{
    match reply {
        Reply::Done => put_row(plain, s, table_row(row)),
        Reply::Refused(refusal) => {
            on_refused_write(plain, s, *refusal);
            Ok(())
        }
        _ => Ok(()),
    }
}

fn on_update(plain: &mut PlainHistory, s: u8, row: &RowIn, reply: &Reply) -> Result<(), NoMemory>
    requires { AllowsReply (world_of plain.old) (Step.Update s row.now) reply.now }
    ensures goes_on { OnOk result
        (world_of plain.new ≡ after_reply (world_of plain.old) (Step.Update s row.now) reply.now) }
    ensures stays { OnErr result (world_of plain.new ≡ world_of plain.old) }
    ensures lacks { OnErr result (TakesMemory (Step.Update s row.now) reply.now) }
{
    match reply {
        Reply::Done => put_row(plain, s, table_row(row)),
        Reply::Refused(refusal) => {
            on_refused_write(plain, s, *refusal);
            Ok(())
        }
        _ => Ok(()),
    }
}

fn on_delete(plain: &mut PlainHistory, s: u8, key: u64, reply: &Reply) -> Result<(), NoMemory>
    requires { AllowsReply (world_of plain.old) (Step.Delete s key) reply.now }
    ensures goes_on { OnOk result
        (world_of plain.new ≡ after_reply (world_of plain.old) (Step.Delete s key) reply.now) }
    ensures stays { OnErr result (world_of plain.new ≡ world_of plain.old) }
    ensures lacks { OnErr result (TakesMemory (Step.Delete s key) reply.now) }
{
    match reply {
        Reply::Done => take_row(plain, s, key),
        Reply::Refused(refusal) => {
            on_refused_write(plain, s, *refusal);
            Ok(())
        }
        _ => Ok(()),
    }
}

fn on_commit(plain: &mut PlainHistory, s: u8, reply: &Reply) -> Result<(), NoMemory>
    requires { AllowsReply (world_of plain.old) (Step.Commit s) reply.now }
    ensures goes_on { OnOk result
        (world_of plain.new ≡ after_reply (world_of plain.old) (Step.Commit s) reply.now) }
    ensures stays { OnErr result (world_of plain.new ≡ world_of plain.old) }
    ensures lacks { OnErr result (TakesMemory (Step.Commit s) reply.now) }
{
    match reply {
        Reply::Committed => match plain.take_in(s) {
            Ok(()) => Ok(()),
            Err(_) => Err(NoMemory),
        },
        Reply::RolledBack => {
            plain.end(s);
            Ok(())
        }
        _ => {
            plain.end_wait(s);
            Ok(())
        }
    }
}

fn on_abort(plain: &mut PlainHistory, s: u8, reply: &Reply)
    requires { AllowsReply (world_of plain.old) (Step.Abort s) reply.now }
    ensures { world_of plain.new ≡ after_reply (world_of plain.old) (Step.Abort s) reply.now }
{
    match reply {
        Reply::RolledBack => plain.end(s),
        _ => plain.end_wait(s),
    }
}

fn on_savepoint(plain: &mut PlainHistory, s: u8, reply: &Reply) -> Result<(), NoMemory>
    requires { AllowsReply (world_of plain.old) (Step.Savepoint s) reply.now }
    ensures goes_on { OnOk result
        (world_of plain.new ≡ after_reply (world_of plain.old) (Step.Savepoint s) reply.now) }
    ensures stays { OnErr result (world_of plain.new ≡ world_of plain.old) }
    ensures lacks { OnErr result (TakesMemory (Step.Savepoint s) reply.now) }
{
    match reply {
        Reply::Done => save(plain, s),
        _ => {
            plain.end_wait(s);
            Ok(())
        }
    }
}

fn on_rollback_to(plain: &mut PlainHistory, s: u8, reply: &Reply)
    requires { AllowsReply (world_of plain.old) (Step.RollbackTo s) reply.now }
    ensures { world_of plain.new ≡ after_reply (world_of plain.old) (Step.RollbackTo s) reply.now }
{
    match reply {
        Reply::Done => plain.go_back(s),
        _ => plain.end_wait(s),
    }
}

fn on_release(plain: &mut PlainHistory, s: u8, reply: &Reply) -> Result<(), NoMemory>
    requires { AllowsReply (world_of plain.old) (Step.Release s) reply.now }
    ensures goes_on { OnOk result
        (world_of plain.new ≡ after_reply (world_of plain.old) (Step.Release s) reply.now) }
    ensures stays { OnErr result (world_of plain.new ≡ world_of plain.old) }
    ensures lacks { OnErr result (TakesMemory (Step.Release s) reply.now) }
{
    match reply {
        Reply::Done => join(plain, s),
        _ => {
            plain.end_wait(s);
            Ok(())
        }
    }
}

fn on_open_index(
    plain: &mut PlainHistory,
    s: u8,
    index: u8,
    low: i128,
    high: i128,
    reply: &Reply,
) -> Result<(), NoMemory>
    requires { AllowsReply (world_of plain.old) (Step.OpenIndex s index low high) reply.now }
    ensures goes_on { OnOk result
        (world_of plain.new
        ≡ after_reply (world_of plain.old) (Step.OpenIndex s index low high) reply.now) }
    ensures stays { OnErr result (world_of plain.new ≡ world_of plain.old) }
    ensures lacks { OnErr result (TakesMemory (Step.OpenIndex s index low high) reply.now) }
{
    match reply {
        Reply::Done => open(
            plain,
            s,
            PlainOrder::Index(index),
            Bounds::Within(low, high),
        ),
        _ => {
            plain.end_wait(s);
            Ok(())
        }
    }
}

fn on_open_heap(plain: &mut PlainHistory, s: u8, reply: &Reply) -> Result<(), NoMemory>
    requires { AllowsReply (world_of plain.old) (Step.OpenHeap s) reply.now }
    ensures goes_on { OnOk result
        (world_of plain.new ≡ after_reply (world_of plain.old) (Step.OpenHeap s) reply.now) }
    ensures stays { OnErr result (world_of plain.new ≡ world_of plain.old) }
    ensures lacks { OnErr result (TakesMemory (Step.OpenHeap s) reply.now) }
{
    match reply {
        Reply::Done => open(plain, s, PlainOrder::Heap, Bounds::All),
        _ => {
            plain.end_wait(s);
            Ok(())
        }
    }
}

fn on_open_keys(
    plain: &mut PlainHistory,
    s: u8,
    low: i128,
    high: i128,
    reply: &Reply,
) -> Result<(), NoMemory>
    requires { AllowsReply (world_of plain.old) (Step.OpenKeys s low high) reply.now }
    ensures goes_on { OnOk result
        (world_of plain.new
        ≡ after_reply (world_of plain.old) (Step.OpenKeys s low high) reply.now) }
    ensures stays { OnErr result (world_of plain.new ≡ world_of plain.old) }
    ensures lacks { OnErr result (TakesMemory (Step.OpenKeys s low high) reply.now) }
{
    match reply {
        Reply::Done => open(plain, s, PlainOrder::Keys, Bounds::Within(low, high)),
        _ => {
            plain.end_wait(s);
            Ok(())
        }
    }
}

fn on_close(plain: &mut PlainHistory, s: u8, reply: &Reply)
    requires { AllowsReply (world_of plain.old) (Step.Close s) reply.now }
    ensures { world_of plain.new ≡ after_reply (world_of plain.old) (Step.Close s) reply.now }
{
    match reply {
        Reply::Done => plain.shut(s),
        _ => plain.end_wait(s),
    }
}

fn on_next(plain: &mut PlainHistory, s: u8, n: u16, reply: &Reply) -> Result<(), NoMemory>
    requires { AllowsReply (world_of plain.old) (Step.Next s n) reply.now }
    ensures goes_on { OnOk result
        (world_of plain.new ≡ after_reply (world_of plain.old) (Step.Next s n) reply.now) }
    ensures stays { OnErr result (world_of plain.new ≡ world_of plain.old) }
    ensures lacks { OnErr result (TakesMemory (Step.Next s n) reply.now) }
{
    match reply {
        Reply::Rows(rows) => match plain.pass_rows(s, rows) {
            Ok(()) => Ok(()),
            Err(_) => Err(NoMemory),
        },
        Reply::Keys(keys) => {
            plain.pass_keys(s, keys);
            Ok(())
        }
        _ => {
            plain.end_wait(s);
            Ok(())
        }
    }
}

fn on_take_page(plain: &mut PlainHistory, s: u8, page: u32, reply: &Reply)
    requires { AllowsReply (world_of plain.old) (Step.TakePage s page) reply.now }
    ensures { world_of plain.new
        ≡ after_reply (world_of plain.old) (Step.TakePage s page) reply.now }
{
    plain.end_wait(s);
}

fn on_create_index(plain: &mut PlainHistory, column: u8, reply: &Reply)
    requires { AllowsReply (world_of plain.old) (Step.CreateIndex column) reply.now }
    ensures { world_of plain.new
        ≡ after_reply (world_of plain.old) (Step.CreateIndex column) reply.now }
{
    match reply {
        Reply::Done => plain.make_if_lacking(column),
        _ => {}
    }
}

fn on_vacuum_begin(plain: &mut PlainHistory, mode: Mode, reply: &Reply)
    requires { AllowsReply (world_of plain.old) (Step.VacuumBegin mode) reply.now }
    ensures { world_of plain.new
        ≡ after_reply (world_of plain.old) (Step.VacuumBegin mode) reply.now }
{
    match reply {
        Reply::Done => plain.set_vacuum(true),
        _ => {}
    }
}

fn on_vacuum_step(plain: &mut PlainHistory, reply: &Reply)
    requires { AllowsReply (world_of plain.old) Step.VacuumStep reply.now }
    ensures { world_of plain.new ≡ after_reply (world_of plain.old) Step.VacuumStep reply.now }
{
    match reply {
        Reply::Ended(_) => plain.set_vacuum(false),
        _ => {}
    }
}

fn on_vacuum_cancel(plain: &mut PlainHistory, reply: &Reply)
    requires { AllowsReply (world_of plain.old) Step.VacuumCancel reply.now }
    ensures { world_of plain.new ≡ after_reply (world_of plain.old) Step.VacuumCancel reply.now }
{
    match reply {
        Reply::Done => plain.set_vacuum(false),
        _ => {}
    }
}

/// Goes on by the answer to the step. Memory may be refused where something was written or opened, or rows were handed out, and to a
/// commit. Then all is as it was.
pub fn follow(plain: &mut PlainHistory, step: &Step, reply: &Reply) -> Result<(), NoMemory>
    requires { AllowsReply (world_of plain.old) step.now reply.now }
    ensures goes_on { OnOk result
        (world_of plain.new ≡ after_reply (world_of plain.old) step.now reply.now) }
    ensures stays { OnErr result (world_of plain.new ≡ world_of plain.old) }
    ensures lacks { OnErr result (TakesMemory step.now reply.now) }
{
    match step {
        Step::Insert(s, row) => on_insert(plain, *s, row, reply),
        Step::Update(s, row) => on_update(plain, *s, row, reply),
        Step::Delete(s, key) => on_delete(plain, *s, *key, reply),
        Step::Savepoint(s) => on_savepoint(plain, *s, reply),
        Step::Release(s) => on_release(plain, *s, reply),
        Step::Commit(s) => on_commit(plain, *s, reply),
        Step::OpenIndex(s, index, low, high) => {
            on_open_index(plain, *s, *index, *low, *high, reply)
        }
        Step::OpenHeap(s) => on_open_heap(plain, *s, reply),
        Step::OpenKeys(s, low, high) => on_open_keys(plain, *s, *low, *high, reply),
        Step::Next(s, n) => on_next(plain, *s, *n, reply),
        _ => {
            follow_freely(plain, step, reply);
            Ok(())
        }
    }
}

// A step that takes no memory.
fn follow_freely(plain: &mut PlainHistory, step: &Step, reply: &Reply)
    requires free { TakesNoMemory step.now }
    requires allowed { AllowsReply (world_of plain.old) step.now reply.now }
    ensures { world_of plain.new ≡ after_reply (world_of plain.old) step.now reply.now }
{
    match step {
        Step::Begin(s) => on_begin(plain, *s, reply),
        Step::BeginReadCommitted(s) => on_begin_read_committed(plain, *s, reply),
        Step::Get(s, key) => on_get(plain, *s, *key, reply),
        Step::RollbackTo(s) => on_rollback_to(plain, *s, reply),
        Step::Abort(s) => on_abort(plain, *s, reply),
        Step::Close(s) => on_close(plain, *s, reply),
        Step::TakePage(s, page) => on_take_page(plain, *s, *page, reply),
        Step::VacuumBegin(mode) => on_vacuum_begin(plain, *mode, reply),
        Step::VacuumStep => on_vacuum_step(plain, reply),
        Step::VacuumCancel => on_vacuum_cancel(plain, reply),
        Step::CreateIndex(column) => on_create_index(plain, *column, reply),
        _ => {}
    }
}
