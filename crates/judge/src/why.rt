//! Why an answer is not allowed.

ghost use Rattle.std.specs.Prelude.{◌≡◌, IfOk, Option};
ghost use Rattle.tuple_header.specs.declared.version.Row.{Row};
ghost use Rattle.refinement.specs.Allowed.{AllowsReply};
ghost use Rattle.plain_history.specs.Plain.{world_of};
ghost use Rattle.judge.specs.Rulings.{IsFreelyRefused, IsReached};
ghost use Rattle.judge.specs.Reasons.{Breaks, GoesBy, IsRuleOfStep, IsRuleOfView, IsRuleOfRead, TellsDue, rule_of_refusal};

use crate::due::{Due, due_making, due_next, due_page, due_vacuum_step};
use crate::expect::{Expected, expect_for};
use calls::{Refusal, Reply, Step};
use following::NoMemory;
use plain_history::PlainHistory;
use std::alloc::Global;

/// A rule of the history, by which an answer goes.
#[derive(Clone, Copy, Debug, PartialEq, Eq)]
pub enum Rule {
    /// The first tests of a step, in their order. There is such a session, it is open or not, and it has not failed. It has a
    /// cursor or none, and its row is not too large.
    OrderOfTests,
    /// By snapshot a session reads what had committed when it began.
    OneSnapshot,
    /// By statement it reads what has committed by now.
    Statement,
    /// A session reads what it wrote itself.
    OwnWrites,
    /// A write finds a row of its key, or none, as its session reads it.
    ViewOfAWrite,
    /// A write meets a Conflict exactly where its key was committed since.
    FirstCommitterWins,
    /// One open session holds a key, and another that would write it has to wait.
    OneWriter,
    /// No wait closes a ring.
    Ring,
    /// A cursor hands out what was left, each row once, and ends where nothing is.
    Cursor,
    /// A session has up to 32 savepoints.
    Savepoint,
    /// A commit commits, unless the session has failed.
    Commit,
    /// Which indexes there are, and which of them are too new.
    Index,
    /// One vacuum runs at a time.
    Vacuum,
    /// Nothing was in the way.
    NoRefusal,
}

/// Why an answer is not allowed.
#[derive(Drop)]
pub struct Why {
    /// The rule that it breaks.
    pub rule: Rule,
    /// What may be answered.
    pub due: Due,
}

fn rule_of_refusal(refusal: Refusal) -> Rule
    ensures { result ≡ rule_of_refusal refusal }
{
    match refusal {
        Refusal::AlreadyThere | Refusal::NotThere => Rule::ViewOfAWrite,
        Refusal::Conflict => Rule::FirstCommitterWins,
        Refusal::Busy(_) => Rule::OneWriter,
        Refusal::Deadlock => Rule::Ring,
        Refusal::TooDeep | Refusal::NoSavepoint => Rule::Savepoint,
        Refusal::NoSuchIndex | Refusal::IndexTooNew | Refusal::IndexBusy => Rule::Index,
        Refusal::BadBounds => Rule::Cursor,
        Refusal::VacuumRunning | Refusal::NoVacuum => Rule::Vacuum,
        Refusal::NotOpen => Rule::OrderOfTests,
        Refusal::AlreadyOpen => Rule::OrderOfTests,
        Refusal::Failed => Rule::OrderOfTests,
        Refusal::CursorOpen => Rule::OrderOfTests,
        Refusal::NoCursor => Rule::OrderOfTests,
        Refusal::TooLarge => Rule::OrderOfTests,
        Refusal::NoSuchSession => Rule::OrderOfTests,
        _ => Rule::NoRefusal,
    }
}

// By which snapshot the session reads.
fn rule_of_view(plain: &PlainHistory, s: u8) -> Rule
    ensures { IsRuleOfView result (world_of plain.now) s }
{
    if plain.reads_by_statement(s) {
        Rule::Statement
    } else {
        Rule::OneSnapshot
    }
}

fn rule_of_read(plain: &PlainHistory, s: u8, key: u64) -> Rule
    ensures { IsRuleOfRead result (world_of plain.now) s key }
{
    if plain.holds_key(s, key) {
        Rule::OwnWrites
    } else {
        rule_of_view(plain, s)
    }
}

fn rule_of_found(plain: &PlainHistory, step: &Step) -> Rule
    ensures { (row : Option Row) → GoesBy result (world_of plain.now) step.now (Reply.Found row) }
{
    match step {
        Step::Get(s, key) => rule_of_read(plain, *s, *key),
        _ => Rule::NoRefusal,
    }
}

fn rule_of(plain: &PlainHistory, step: &Step, reply: &Reply) -> Rule
    ensures { GoesBy result (world_of plain.now) step.now reply.now }
{
    match reply {
        Reply::Refused(refusal) => rule_of_refusal(*refusal),
        Reply::Found(_) => rule_of_found(plain, step),
        Reply::Committed | Reply::RolledBack => Rule::Commit,
        Reply::Rows(_) | Reply::Keys(_) | Reply::End => Rule::Cursor,
        _ => Rule::NoRefusal,
    }
}

// Of a step that has one answer, or may be done.
fn why_plainly(plain: &PlainHistory, step: &Step, reply: &Reply) -> Why
    requires judged { IsFreelyRefused step.now }
    requires reached { IsReached (world_of plain.now) }
    requires broken { ¬ AllowsReply (world_of plain.now) step.now reply.now }
    ensures rule { Breaks result.rule (world_of plain.now) step.now reply.now }
    ensures due { TellsDue (world_of plain.now) step.now result.due }
{
    match expect_for(plain, step) {
        Expected::Due(due) => Why {
            rule: rule_of(plain, step, &due),
            due: Due::Alone(due),
        },
        Expected::Free => Why {
            rule: rule_of(plain, step, reply),
            due: Due::Or(Reply::Done),
        },
    }
}

// Of a step to which more may be answered: the due answer's rule, or else this.
fn why_beside(plain: &PlainHistory, step: &Step, reply: &Reply, due: Due, other: Rule) -> Why
    requires broken { ¬ AllowsReply (world_of plain.now) step.now reply.now }
    requires told { TellsDue (world_of plain.now) step.now due }
    requires other { IsRuleOfStep other (world_of plain.now) step.now }
    ensures rule { Breaks result.rule (world_of plain.now) step.now reply.now }
    ensures due { TellsDue (world_of plain.now) step.now result.due }
{
    match due {
        Due::Alone(answer) => Why {
            rule: rule_of(plain, step, &answer),
            due: Due::Alone(answer),
        },
        Due::Or(answer) => Why {
            rule: other,
            due: Due::Or(answer),
        },
        Due::Open => Why {
            rule: other,
            due: Due::Open,
        },
    }
}

/// Why the answer is not allowed.
pub(crate) fn why_not(
    alloc: Global,
    plain: &PlainHistory,
    step: &Step,
    reply: &Reply,
) -> Result<Why, NoMemory>
    requires reached { IsReached (world_of plain.now) }
    requires broken { ¬ AllowsReply (world_of plain.now) step.now reply.now }
    ensures rule { IfOk result
        (λ why. Breaks why.rule (world_of plain.now) step.now reply.now) }
    ensures due { IfOk result (λ why. TellsDue (world_of plain.now) step.now why.due) }
{
    match step {
        Step::CreateIndex(column) => {
            let due = due_making(plain, *column);
            Ok(why_beside(plain, step, reply, due, Rule::Index))
        }
        Step::VacuumStep => {
            let due = due_vacuum_step(plain);
            Ok(why_beside(plain, step, reply, due, Rule::Vacuum))
        }
        Step::Next(s, n) => match due_next(alloc, plain, *s, *n) {
            Ok(due) => Ok(why_beside(plain, step, reply, due, Rule::Cursor)),
            Err(NoMemory) => Err(NoMemory),
        },
        Step::TakePage(s, page) => {
            let due = due_page(plain, *s, *page);
            Ok(why_beside(plain, step, reply, due, rule_of_view(plain, *s)))
        }
        _ => Ok(why_plainly(plain, step, reply)),
    }
}
