//! Judges an answer, by a reply that it may stand for.

ghost use Rattle.std.specs.Prelude.{◌≡◌, IfOk, OnOk};
ghost use Rattle.refinement.specs.Allowed.{AllowsReply, after_reply};
ghost use Rattle.plain_history.specs.Plain.{world_of};
ghost use Rattle.judge.specs.Reasons.{TellsDue};
ghost use Rattle.transcript.specs.Transcripts.{CountsLetOff};
ghost use Rattle.transcript.specs.Judging.{GoesOnAs, JudgesAnswer, JudgesBusy, JudgesReply, NamesBusy};

use calls::{Refusal, Reply, Step};
use judge::{Due, Judge, NoMemory, Ruling, Why};
use reply_text::reply_at;
use std::alloc::Global;

/// What is said of an answer.
#[derive(Drop)]
pub(crate) enum Verdict {
    /// It is allowed, and so many refusals of it are left open: one or none.
    Allowed(usize),
    /// It is not.
    Wrong(Why),
}

// One, if the reply is a refusal that is left open.
fn let_off(judge: &Judge, step: &Step, reply: &Reply) -> usize
    ensures { CountsLetOff (world_of judge.now) step.now reply.now result }
{
    match reply {
        Reply::Refused(refusal) => {
            if judge.leaves_open(step, *refusal) {
                1
            } else {
                0
            }
        }
        _ => 0,
    }
}

// Judges a reply.
fn judge_reply(
    alloc: Global,
    judge: &mut Judge,
    step: &Step,
    reply: &Reply,
) -> Result<Verdict, NoMemory>
    ensures { IfOk result
        (λ v. JudgesReply (world_of judge.old) step.now reply.now v (world_of judge.new)) }
{
    let left_open = let_off(judge, step, reply);
    match judge.judge(step, reply) {
        Ok(Ruling::Allowed) => Ok(Verdict::Allowed(left_open)),
        Ok(Ruling::Broken) => match judge.why(alloc, step, reply) {
            Ok(why) => Ok(Verdict::Wrong(why)),
            Err(NoMemory) => Err(NoMemory),
        },
        Err(NoMemory) => Err(NoMemory),
    }
}

// A session by which Busy is allowed, if there is one; else any.
fn busy_by(judge: &Judge, step: &Step) -> u8
    ensures { NamesBusy (world_of judge.now) step.now result }
{
    for s in 0..256usize {
        if judge.allows(step, &Reply::Refused(Refusal::Busy(s as u8))) {
            return s as u8;
        }
    }
    0
}

// Judges a Busy that names nobody: it is allowed where it is by some session.
fn judge_busy(alloc: Global, judge: &mut Judge, step: &Step) -> Result<Verdict, NoMemory>
    ensures { IfOk result
        (λ v. JudgesBusy (world_of judge.old) step.now v (world_of judge.new)) }
{
    let s = busy_by(judge, step);
    match judge_reply(alloc, judge, step, &Reply::Refused(Refusal::Busy(s))) {
        Ok(verdict) => Ok(verdict),
        Err(NoMemory) => Err(NoMemory),
    }
}

// Judges the answer to a step, if it may stand for a reply. Some engines don't tell who holds a key.
pub(crate) fn judge_answer(
    alloc: Global,
    judge: &mut Judge,
    step: &Step,
    answer: &[u8],
) -> Result<Option<Verdict>, NoMemory>
    ensures { IfOk result
        (λ o. JudgesAnswer (world_of judge.old) step.now answer.now o (world_of judge.new)) }
{
    if answer == b"error 7 Busy".as_slice() {
        return match judge_busy(alloc, judge, step) {
            Ok(verdict) => Ok(Some(verdict)),
            Err(NoMemory) => Err(NoMemory),
        };
    }
    let reply = match reply_at(alloc, answer) {
        Ok(Some(reply)) => reply,
        Ok(None) => return Ok(None),
        Err(_) => return Err(NoMemory),
    };
    match judge_reply(alloc, judge, step, &reply) {
        Ok(verdict) => Ok(Some(verdict)),
        Err(NoMemory) => Err(NoMemory),
    }
}

// Goes on by a reply that is allowed.
fn go_on_by(judge: &mut Judge, step: &Step, reply: &Reply) -> Result<(), NoMemory>
    requires { AllowsReply (world_of judge.old) step.now reply.now }
    ensures { OnOk result
        (world_of judge.new ≡ after_reply (world_of judge.old) step.now reply.now) }
{
    match judge.judge(step, reply) {
        Ok(_) => Ok(()),
        Err(NoMemory) => Err(NoMemory),
    }
}

// Goes on as if a wrong answer had been what is due.
pub(crate) fn go_on(judge: &mut Judge, step: &Step, due: &Due) -> Result<(), NoMemory>
    requires { TellsDue (world_of judge.old) step.now due.now }
    ensures { OnOk result
        (GoesOnAs (world_of judge.old) step.now due.now (world_of judge.new)) }
{
    match due {
        Due::Alone(answer) | Due::Or(answer) => go_on_by(judge, step, answer),
        Due::Open => {
            let answer = judge.answer(step);
            go_on_by(judge, step, &answer)
        }
    }
}
