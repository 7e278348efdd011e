//! The judge. The history that it keeps is private to it, so each question about an answer is a call here.

ghost use Rattle.std.specs.Prelude.{◌≡◌, ◌↔◌, IsTrue, IfOk, OnErr};
ghost use Rattle.history.specs.World.{beginning};
ghost use Rattle.refinement.specs.Allowed.{AllowsReply};
ghost use Rattle.one_answer.specs.OneAnswer.{IsLeftOpen};
ghost use Rattle.plain_history.specs.Plain.{world_of};
ghost use Rattle.judge.specs.Rulings.{IsReached, Judges, IsFree, IsFreelyRefused};
ghost use Rattle.following.specs.Following.{TakesMemory};
ghost use Rattle.judge.specs.Reasons.{Breaks, TellsDue};

use crate::compare::same_reply;
use crate::due::answer_to;
use crate::expect::{
    Expected, expect_for, is_left_open, may_answer_making, may_answer_vacuum_step,
};
use crate::handing::{may_answer_next, may_answer_page};
use crate::why::{Why, why_not};
use calls::{Refusal, Reply, Step};
use following::{NoMemory, follow};
use plain_history::PlainHistory;
use std::alloc::Global;
use std::marker::Model;
use tuple_header::COLUMNS;

/// What is said of an answer.
#[derive(Clone, Copy, Debug, PartialEq, Eq)]
pub enum Ruling {
    /// The history allows it.
    Allowed,
    /// It does not.
    Broken,
}

/// The history so far, by the answers that it has allowed.
#[derive(Drop)]
pub struct Judge {
    plain: PlainHistory,
}

impl Model for Judge {
    ghost use Rattle.plain_history.specs.Plain.{Plain, world_of};
    ghost use Rattle.judge.specs.Rulings.{IsReached};

    ghost Value = { Plain };

    ghost view = { λ j. j.plain };

    ghost invariant = { λ j. IsReached (world_of j.plain) };
}

// Does the history allow the answer?
fn is_allowed(plain: &PlainHistory, step: &Step, reply: &Reply) -> bool
    requires { IsReached (world_of plain.now) }
    ensures { IsTrue result ↔ AllowsReply (world_of plain.now) step.now reply.now }
{
    match step {
        Step::CreateIndex(column) => may_answer_making(plain, *column, reply),
        Step::VacuumStep => may_answer_vacuum_step(plain, reply),
        Step::Next(s, n) => may_answer_next(plain, *s, *n, reply),
        Step::TakePage(s, page) => may_answer_page(plain, *s, *page, reply),
        _ => is_plainly_allowed(plain, step, reply),
    }
}

// The same of a step that has one answer, or may be done.
fn is_plainly_allowed(plain: &PlainHistory, step: &Step, reply: &Reply) -> bool
    requires judged { IsFreelyRefused step.now }
    requires reached { IsReached (world_of plain.now) }
    ensures { IsTrue result ↔ AllowsReply (world_of plain.now) step.now reply.now }
{
    match expect_for(plain, step) {
        Expected::Due(due) => same_reply(&due, reply),
        Expected::Free => is_free(plain, step, reply),
    }
}

// Is it Done, or left open in its place?
fn is_free(plain: &PlainHistory, step: &Step, reply: &Reply) -> bool
    requires { IsFreelyRefused step.now }
    ensures { IsTrue result ↔ IsFree (world_of plain.now) step.now reply.now }
{
    match reply {
        Reply::Done => true,
        Reply::Refused(refusal) => is_left_open(plain, step, *refusal),
        _ => false,
    }
}

impl Judge {
    /// Nothing has been judged, and these columns are indexed.
    pub fn new(alloc: Global, indexed: [bool; COLUMNS]) -> Result<Judge, NoMemory>
        ensures { IfOk result (λ j. world_of j ≡ beginning indexed) }
    {
        match PlainHistory::new(alloc, indexed) {
            Ok(plain) => Ok(Judge { plain }),
            Err(_) => Err(NoMemory),
        }
    }

    /// The history so far.
    pub fn history(&self) -> &PlainHistory
        ensures { result.now ≡ self.now }
    {
        &self.plain
    }

    /// Whether the answer to the step is allowed; nothing is changed.
    pub fn allows(&self, step: &Step, reply: &Reply) -> bool
        ensures { IsTrue result ↔ AllowsReply (world_of self.now) step.now reply.now }
    {
        is_allowed(&self.plain, step, reply)
    }

    /// An answer to the step that is allowed: there is always one. It wants no memory, so where rows would have to be named it is that
    /// there is none.
    pub fn answer(&self, step: &Step) -> Reply
        ensures { AllowsReply (world_of self.now) step.now result }
    {
        answer_to(&self.plain, step)
    }

    /// Whether the history leaves the refusal open at the step. Who counts these, where the judge allows them, knows how often an engine
    /// was let off.
    pub fn leaves_open(&self, step: &Step, refusal: Refusal) -> bool
        ensures { IsTrue result
            ↔ IsLeftOpen (world_of self.now) step.now (Reply.Refused refusal) }
    {
        is_left_open(&self.plain, step, refusal)
    }

    /// Which rule an answer breaks that is not allowed, and what is due; nothing is changed.
    pub fn why(&self, alloc: Global, step: &Step, reply: &Reply) -> Result<Why, NoMemory>
        requires { ¬ AllowsReply (world_of self.now) step.now reply.now }
        ensures rule { IfOk result
            (λ why. Breaks why.rule (world_of self.now) step.now reply.now) }
        ensures due { IfOk result (λ why. TellsDue (world_of self.now) step.now why.due) }
    {
        why_not(alloc, &self.plain, step, reply)
    }

    /// Whether the answer to the step is allowed. Then the history goes on by it; else it is as it was.
    pub fn judge(&mut self, step: &Step, reply: &Reply) -> Result<Ruling, NoMemory>
        ensures told { IfOk result
            (λ ruling. Judges (world_of self.old) step.now reply.now ruling (world_of self.new)) }
        ensures stays { OnErr result (world_of self.new ≡ world_of self.old) }
        ensures lacks { OnErr result (TakesMemory step.now reply.now) }
    {
        if is_allowed(&self.plain, step, reply) {
            match follow(&mut self.plain, step, reply) {
                Ok(()) => Ok(Ruling::Allowed),
                Err(_) => Err(NoMemory),
            }
        } else {
            Ok(Ruling::Broken)
        }
    }
}
