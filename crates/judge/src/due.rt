//! What may be answered to any step.

ghost use Rattle.std.specs.Prelude.{◌≡◌, IfOk};
ghost use Rattle.refinement.specs.Allowed.{AllowsReply};
ghost use Rattle.plain_cursor.specs.Hands.{cursor_of};
ghost use Rattle.plain_history.specs.Plain.{world_of};
ghost use Rattle.judge.specs.Reasons.{HandsDue, TellsDue};

use crate::expect::{Expected, expect_for, of_making};
use crate::handing::{is_over, next_of};
use calls::{Piece, Refusal, Reply, Step};
use following::NoMemory;
use plain_cursor::{PlainCursor, PlainOrder, all_keys};
use plain_history::PlainHistory;
use std::alloc::Global;
use tuple_header::Row;

/// What may be answered to a step.
#[derive(Drop)]
pub enum Due {
    /// This alone.
    Alone(Reply),
    /// This, or what is left open in its place.
    Or(Reply),
    /// What is left open: more than one answer, of which none comes first.
    Open,
}

fn copy_all(alloc: Global, rows: &[Row]) -> Result<Vec<Row>, NoMemory>
    ensures { IfOk result (λ copies. copies.items ≡ rows.now) }
{
    let mut copies = Vec::new(alloc);
    for row in rows {
        match copies.push(row.copy()) {
            Ok(()) => {}
            Err(_) => return Err(NoMemory),
        }
    }
    Ok(copies)
}

// What the cursor may hand out.
fn hand(alloc: Global, cursor: &PlainCursor, n: u16) -> Result<Due, NoMemory>
    ensures { IfOk result (λ due. HandsDue (cursor_of cursor.now) n due) }
{
    if is_over(cursor) {
        return Ok(Due::Alone(Reply::End));
    }
    match cursor.order() {
        PlainOrder::Index(_) => match copy_all(alloc, next_of(cursor.rest(), n)) {
            Ok(rows) => Ok(Due::Or(Reply::Rows(rows))),
            Err(NoMemory) => Err(NoMemory),
        },
        PlainOrder::Keys => match all_keys(alloc, next_of(cursor.rest(), n)) {
            Ok(keys) => Ok(Due::Or(Reply::Keys(keys))),
            Err(_) => Err(NoMemory),
        },
        PlainOrder::Heap => Ok(Due::Open),
    }
}

/// What is due where the next n are asked for.
pub(crate) fn due_next(alloc: Global, plain: &PlainHistory, s: u8, n: u16) -> Result<Due, NoMemory>
    ensures { IfOk result (λ due. TellsDue (world_of plain.now) (Step.Next s n) due) }
{
    match plain.cursor(s) {
        Ok(cursor) => hand(alloc, cursor, n),
        Err(why) => Ok(Due::Alone(Reply::Refused(why))),
    }
}

/// What is due where a page is taken.
pub(crate) fn due_page(plain: &PlainHistory, s: u8, page: u32) -> Due
    ensures { TellsDue (world_of plain.now) (Step.TakePage s page) result }
{
    match plain.check_ready(s) {
        Ok(()) => Due::Open,
        Err(why) => Due::Alone(Reply::Refused(why)),
    }
}

/// What is due to a step of the vacuum.
pub(crate) fn due_vacuum_step(plain: &PlainHistory) -> Due
    ensures { TellsDue (world_of plain.now) Step.VacuumStep result }
{
    if plain.has_vacuum() {
        Due::Open
    } else {
        Due::Alone(Reply::Refused(Refusal::NoVacuum))
    }
}

/// What is due where an index would be made.
pub(crate) fn due_making(plain: &PlainHistory, column: u8) -> Due
    ensures { TellsDue (world_of plain.now) (Step.CreateIndex column) result }
{
    match of_making(plain, column) {
        Expected::Due(due) => Due::Alone(due),
        Expected::Free => Due::Or(Reply::Done),
    }
}

// An engine may answer that there is no memory. It is nobody's error here.
fn no_memory() -> Reply
    ensures { result ≡ Reply.Refused Refusal.NoMemory }
{
    Reply::Refused(Refusal::NoMemory)
}

fn answer_next(plain: &PlainHistory, s: u8, n: u16) -> Reply
    ensures { AllowsReply (world_of plain.now) (Step.Next s n) result }
{
    match plain.cursor(s) {
        Ok(cursor) => {
            if is_over(cursor) {
                Reply::End
            } else {
                no_memory()
            }
        }
        Err(why) => Reply::Refused(why),
    }
}

fn answer_page(plain: &PlainHistory, s: u8, page: u32) -> Reply
    ensures { AllowsReply (world_of plain.now) (Step.TakePage s page) result }
{
    match plain.check_ready(s) {
        Ok(()) => Reply::Refused(Refusal::NoSuchPage),
        Err(why) => Reply::Refused(why),
    }
}

fn answer_vacuum_step(plain: &PlainHistory) -> Reply
    ensures { AllowsReply (world_of plain.now) Step.VacuumStep result }
{
    if plain.has_vacuum() {
        Reply::Worked(Piece::Heap(0))
    } else {
        Reply::Refused(Refusal::NoVacuum)
    }
}

fn answer_making(plain: &PlainHistory, column: u8) -> Reply
    ensures { AllowsReply (world_of plain.now) (Step.CreateIndex column) result }
{
    match of_making(plain, column) {
        Expected::Due(due) => due,
        Expected::Free => Reply::Done,
    }
}

/// An answer to the step that is allowed. It wants no memory, so where rows would have to be named it is that there is none.
pub(crate) fn answer_to(plain: &PlainHistory, step: &Step) -> Reply
    ensures { AllowsReply (world_of plain.now) step.now result }
{
    match step {
        Step::CreateIndex(column) => answer_making(plain, *column),
        Step::VacuumStep => answer_vacuum_step(plain),
        Step::Next(s, n) => answer_next(plain, *s, *n),
        Step::TakePage(s, page) => answer_page(plain, *s, *page),
        _ => match expect_for(plain, step) {
            Expected::Due(due) => due,
            Expected::Free => Reply::Done,
        },
    }
}
