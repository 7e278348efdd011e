//! What may be answered.

ghost use Rattle.std.specs.Prelude.{◌≡◌, ◌↔◌, ◌<◌, IsTrue, false, length};
ghost use Rattle.refinement.specs.Allowed.{AllowsReply};
ghost use Rattle.one_answer.specs.OneAnswer.{IsDue, IsLeftOpen, IsOpenByStatement};
ghost use Rattle.plain_history.specs.Plain.{world_of};
ghost use Rattle.history.specs.World.{LacksIndex};
ghost use Rattle.judge.specs.Rulings.{IsFreelyRefused, Expects, refusal_of};
ghost use Rattle.tuple_header.specs.declared.version.TheConstants.{MOST_BODY};

use calls::{Mode, Refusal, Reply, RowIn, Step};
use plain_history::{PlainHistory, Refused};
use tuple_header::MOST_BODY;

/// What may be answered to a step.
#[derive(Drop)]
pub(crate) enum Expected {
    /// This alone.
    Due(Reply),
    /// That it was done, or what is left open in its place.
    Free,
}

fn of_begin(plain: &PlainHistory, s: u8) -> Expected
    ensures by_snapshot { Expects (world_of plain.now) (Step.Begin s) result }
    ensures by_statement { Expects (world_of plain.now) (Step.BeginReadCommitted s) result }
{
    match plain.check_begin(s) {
        Ok(()) => Expected::Free,
        Err(why) => Expected::Due(Reply::Refused(why)),
    }
}

fn of_get(plain: &PlainHistory, s: u8, key: u64) -> Expected
    ensures { Expects (world_of plain.now) (Step.Get s key) result }
{
    match plain.read(s, key) {
        Ok(row) => Expected::Due(Reply::Found(row)),
        Err(why) => Expected::Due(Reply::Refused(why)),
    }
}

// Has the body more bytes than a row of the table may have?
fn is_too_large(row: &RowIn) -> bool
    ensures { IsTrue result ↔ (MOST_BODY < length row.now.body) }
{
    row.body.len() > MOST_BODY
}

fn of_refused(why: Refused) -> Expected
    ensures { result ≡ Expected.Due (Reply.Refused (refusal_of why)) }
{
    match why {
        Refused::By(refusal) => Expected::Due(Reply::Refused(refusal)),
        Refused::Deadlock => Expected::Due(Reply::Refused(Refusal::Deadlock)),
    }
}

fn of_insert(plain: &PlainHistory, s: u8, row: &RowIn) -> Expected
    ensures { Expects (world_of plain.now) (Step.Insert s row.now) result }
{
    match plain.check_writer(s) {
        Ok(()) => {
            if is_too_large(row) {
                Expected::Due(Reply::Refused(Refusal::TooLarge))
            } else {
                match plain.check_insert(s, row.key) {
                    Ok(()) => Expected::Free,
                    Err(why) => of_refused(why),
                }
            }
        }
        Err(why) => Expected::Due(Reply::Refused(why)),
    }
}

fn of_update(plain: &PlainHistory, s: u8, row: &RowIn) -> Expected
    ensures { Expects (world_of plain.now) (Step.Update s row.now) result }
{
    match plain.check_writer(s) {
        Ok(()) => {
            if is_too_large(row) {
                Expected::Due(Reply::Refused(Refusal::TooLarge))
            } else {
                match plain.check_replace(s, row.key) {
                    Ok(()) => Expected::Free,
                    Err(why) => of_refused(why),
                }
            }
        }
        Err(why) => Expected::Due(Reply::Refused(why)),
    }
}

fn of_delete(plain: &PlainHistory, s: u8, key: u64) -> Expected
    ensures { Expects (world_of plain.now) (Step.Delete s key) result }
{
    match plain.check_replace(s, key) {
        Ok(()) => Expected::Free,
        Err(why) => of_refused(why),
    }
}

fn of_commit(plain: &PlainHistory, s: u8) -> Expected
    ensures { Expects (world_of plain.now) (Step.Commit s) result }
{
    match plain.check_ready(s) {
        Ok(()) => Expected::Due(Reply::Committed),
        Err(Refusal::Failed) => Expected::Due(Reply::RolledBack),
        Err(why) => Expected::Due(Reply::Refused(why)),
    }
}

fn of_abort(plain: &PlainHistory, s: u8) -> Expected
    ensures { Expects (world_of plain.now) (Step.Abort s) result }
{
    match plain.check_open(s) {
        Ok(()) => Expected::Due(Reply::RolledBack),
        Err(why) => Expected::Due(Reply::Refused(why)),
    }
}

fn of_savepoint(plain: &PlainHistory, s: u8) -> Expected
    ensures { Expects (world_of plain.now) (Step.Savepoint s) result }
{
    match plain.check_save(s) {
        Ok(()) => Expected::Free,
        Err(why) => Expected::Due(Reply::Refused(why)),
    }
}

fn of_rollback_to(plain: &PlainHistory, s: u8) -> Expected
    ensures { Expects (world_of plain.now) (Step.RollbackTo s) result }
{
    match plain.check_roll_back(s) {
        Ok(()) => Expected::Free,
        Err(why) => Expected::Due(Reply::Refused(why)),
    }
}

fn of_release(plain: &PlainHistory, s: u8) -> Expected
    ensures { Expects (world_of plain.now) (Step.Release s) result }
{
    match plain.check_release(s) {
        Ok(()) => Expected::Free,
        Err(why) => Expected::Due(Reply::Refused(why)),
    }
}

fn of_open_index(plain: &PlainHistory, s: u8, index: u8, low: i128, high: i128) -> Expected
    ensures { Expects (world_of plain.now) (Step.OpenIndex s index low high) result }
{
    match plain.check_index(s, index, low, high) {
        Ok(()) => Expected::Free,
        Err(why) => Expected::Due(Reply::Refused(why)),
    }
}

fn of_open_heap(plain: &PlainHistory, s: u8) -> Expected
    ensures { Expects (world_of plain.now) (Step.OpenHeap s) result }
{
    match plain.check_writer(s) {
        Ok(()) => Expected::Free,
        Err(why) => Expected::Due(Reply::Refused(why)),
    }
}

fn of_open_keys(plain: &PlainHistory, s: u8, low: i128, high: i128) -> Expected
    ensures { Expects (world_of plain.now) (Step.OpenKeys s low high) result }
{
    match plain.check_bounds(s, low, high) {
        Ok(()) => Expected::Free,
        Err(why) => Expected::Due(Reply::Refused(why)),
    }
}

fn of_close(plain: &PlainHistory, s: u8) -> Expected
    ensures { Expects (world_of plain.now) (Step.Close s) result }
{
    match plain.check_cursor(s) {
        Ok(()) => Expected::Free,
        Err(why) => Expected::Due(Reply::Refused(why)),
    }
}

fn of_vacuum_begin(plain: &PlainHistory, mode: Mode) -> Expected
    ensures { Expects (world_of plain.now) (Step.VacuumBegin mode) result }
{
    if plain.has_vacuum() {
        Expected::Due(Reply::Refused(Refusal::VacuumRunning))
    } else {
        Expected::Free
    }
}

fn of_vacuum_cancel(plain: &PlainHistory) -> Expected
    ensures { Expects (world_of plain.now) Step.VacuumCancel result }
{
    if plain.has_vacuum() {
        Expected::Free
    } else {
        Expected::Due(Reply::Refused(Refusal::NoVacuum))
    }
}

/// What may be answered to the step.
pub(crate) fn expect_for(plain: &PlainHistory, step: &Step) -> Expected
    requires { IsFreelyRefused step.now }
    ensures { Expects (world_of plain.now) step.now result }
{
    match step {
        Step::Begin(s) => of_begin(plain, *s),
        Step::BeginReadCommitted(s) => of_begin(plain, *s),
        Step::Get(s, key) => of_get(plain, *s, *key),
        Step::Insert(s, row) => of_insert(plain, *s, row),
        Step::Update(s, row) => of_update(plain, *s, row),
        Step::Delete(s, key) => of_delete(plain, *s, *key),
        Step::Savepoint(s) => of_savepoint(plain, *s),
        Step::RollbackTo(s) => of_rollback_to(plain, *s),
        Step::Release(s) => of_release(plain, *s),
        Step::Commit(s) => of_commit(plain, *s),
        Step::Abort(s) => of_abort(plain, *s),
        Step::OpenIndex(s, index, low, high) => of_open_index(plain, *s, *index, *low, *high),
        Step::OpenHeap(s) => of_open_heap(plain, *s),
        Step::OpenKeys(s, low, high) => of_open_keys(plain, *s, *low, *high),
        Step::Close(s) => of_close(plain, *s),
        Step::VacuumBegin(mode) => of_vacuum_begin(plain, *mode),
        Step::VacuumCancel => of_vacuum_cancel(plain),
        _ => Expected::Free,
    }
}

// Is there no memory for the snapshot that a cursor of the session keeps?
fn may_lack_memory(plain: &PlainHistory, s: u8, refusal: Refusal) -> bool
    ensures { IsTrue result
        ↔ ((refusal ≡ Refusal.NoMemory) × IsOpenByStatement (world_of plain.now) s) }
{
    matches!(refusal, Refusal::NoMemory) && plain.reads_by_statement(s)
}

/// Is the refusal left open at the step?
pub(crate) fn is_left_open(plain: &PlainHistory, step: &Step, refusal: Refusal) -> bool
    ensures { IsTrue result
        ↔ IsLeftOpen (world_of plain.now) step.now (Reply.Refused refusal) }
{
    match step {
        Step::Begin(_) => matches!(refusal, Refusal::NoMemory),
        Step::Insert(_, _) | Step::Update(_, _) => {
            matches!(
                refusal,
                Refusal::NeedsFreeze | Refusal::NoRoom | Refusal::NoMemory
            )
        }
        Step::Delete(_, _) => matches!(refusal, Refusal::NeedsFreeze | Refusal::NoMemory),
        Step::Savepoint(_) => matches!(refusal, Refusal::NoMemory),
        Step::OpenIndex(s, _, _, _) => may_lack_memory(plain, *s, refusal),
        Step::OpenHeap(s) => may_lack_memory(plain, *s, refusal),
        Step::OpenKeys(s, _, _) => may_lack_memory(plain, *s, refusal),
        Step::Next(_, _) => matches!(refusal, Refusal::NoMemory),
        Step::TakePage(_, _) => matches!(refusal, Refusal::NoSuchPage | Refusal::NoMemory),
        Step::Prune(_) => matches!(refusal, Refusal::NoSuchPage),
        Step::ApplyPlan(_, _) => matches!(refusal, Refusal::NoSuchPage | Refusal::Stale),
        Step::CreateIndex(_) => matches!(refusal, Refusal::NoMemory),
        Step::BeginReadCommitted(_) | Step::Commit(_) | Step::Abort(_) => false,
        Step::RollbackTo(_) | Step::Release(_) => false,
        Step::Get(_, _) | Step::Close(_) => false,
        Step::VacuumBegin(_) | Step::VacuumStep | Step::VacuumCancel => false,
    }
}

/// What may be answered to the making of an index. Where it may be done NoMemory is left open, if the index is lacking.
pub(crate) fn of_making(plain: &PlainHistory, column: u8) -> Expected
    ensures { Expects (world_of plain.now) (Step.CreateIndex column) result }
{
    if column > 3 {
        Expected::Due(Reply::Refused(Refusal::NoSuchIndex))
    } else if !lacks_index(plain, column) {
        Expected::Free
    } else if plain.has_vacuum() {
        Expected::Due(Reply::Refused(Refusal::VacuumRunning))
    } else if plain.has_anyone_written() {
        Expected::Due(Reply::Refused(Refusal::IndexBusy))
    } else {
        Expected::Free
    }
}

/// Whether that may be answered to the making of an index.
pub(crate) fn may_answer_making(plain: &PlainHistory, column: u8, reply: &Reply) -> bool
    ensures { IsTrue result ↔ AllowsReply (world_of plain.now) (Step.CreateIndex column) reply.now }
{
    match reply {
        Reply::Done => may_make(plain, column),
        Reply::Refused(Refusal::NoSuchIndex) => column > 3,
        Reply::Refused(Refusal::VacuumRunning) => lacks_index(plain, column) && plain.has_vacuum(),
        Reply::Refused(Refusal::IndexBusy) => {
            may_lack(plain, column) && plain.has_anyone_written()
        }
        Reply::Refused(Refusal::NoMemory) => {
            lacks_index(plain, column) && may_make(plain, column)
        }
        _ => false,
    }
}

fn may_make(plain: &PlainHistory, column: u8) -> bool
    ensures { IsTrue result
        ↔ AllowsReply (world_of plain.now) (Step.CreateIndex column) Reply.Done }
{
    match plain.check_make(column) {
        Ok(()) => plain.has_index(column + 1) || !plain.has_vacuum(),
        Err(_) => false,
    }
}

// May the index be lacking after the step too, since no vacuum runs that bars it?
fn may_lack(plain: &PlainHistory, column: u8) -> bool
    ensures { IsTrue result
        ↔ (LacksIndex (world_of plain.now) column × ((world_of plain.now).has_vacuum ≡ false)) }
{
    lacks_index(plain, column) && !plain.has_vacuum()
}

fn lacks_index(plain: &PlainHistory, column: u8) -> bool
    ensures { IsTrue result ↔ LacksIndex (world_of plain.now) column }
{
    column < 4 && !plain.has_index(column + 1)
}

/// Whether that may be answered to a step of the vacuum.
pub(crate) fn may_answer_vacuum_step(plain: &PlainHistory, reply: &Reply) -> bool
    ensures { IsTrue result ↔ AllowsReply (world_of plain.now) Step.VacuumStep reply.now }
{
    match reply {
        Reply::Worked(_) => plain.has_vacuum(),
        Reply::Ended(_) => plain.has_vacuum(),
        Reply::Refused(Refusal::NoVacuum) => !plain.has_vacuum(),
        _ => false,
    }
}
