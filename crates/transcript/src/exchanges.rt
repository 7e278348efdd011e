//! Judges the exchanges of a transcript, one after another.

ghost use Rattle.std.specs.Prelude.{◌≡◌, ◌+◌, ◌<◌, ◌≤◌, IfErr, IfOk, length, take};
ghost use Rattle.plain_history.specs.Plain.{world_of};
ghost use Rattle.transcript.specs.Transcripts.{line_ends as line_ends_of};
ghost use Rattle.transcript.specs.Judging.{AreAllExchanges, AreExchanges, IsNextExchange, IsPastExchange, IsRightOrWrong, MatchesExchange, TellsCounts};

use crate::begins::Begins;
use crate::cutting::{answer_at, line_ends, question_at};
use crate::fault::Fault;
use crate::question::{Question, question_for};
use crate::ruling::{Verdict, go_on, judge_answer};
use crate::showing::shown_by;
use crate::telling::{tell_allowed, tell_end, tell_wrong};
use calls::Step;
use judge::{Due, Judge};
use std::alloc::Global;

/// An exchange that was judged, and where the next begins.
#[derive(Drop)]
pub(crate) enum Heard {
    /// It is allowed: how many steps were judged in it, and how many were let off.
    Went(usize, usize, usize),
    /// Its answer to this step is wrong, and this is due.
    Wrong(usize, Step, Due),
}

/// How many answers of an exchange are allowed, how many wrong, and how many let off, and where the next begins.
#[derive(Clone, Copy)]
pub(crate) struct Past {
    pub(crate) next: usize,
    pub(crate) allowed: usize,
    pub(crate) wrong: usize,
    pub(crate) left_open: usize,
}

// The number of the line at this place, counted from 1.
fn number_at(text: &[u8], at: usize) -> usize
    requires { at ≤ length text.now }
    ensures { result ≡ line_ends_of (take at text.now) + 1 }
{
    line_ends(&text[..at]) + 1
}

// Judges the exchange at this place of the text.
fn judge_next(
    alloc: Global,
    begins: Begins,
    judge: &mut Judge,
    text: &[u8],
    at: usize,
    out: &mut Vec<u8>,
) -> Result<Heard, Fault>
    requires { at < length text.now }
    ensures next { IfOk result
        (λ next. IsNextExchange begins (world_of judge.old) text.now at next
        (world_of judge.new) out.old.items out.new.items) }
    ensures fault { IfErr result (λ e. MatchesExchange text.now at e) }
{
    let Some((asked, left)) = question_at(&text[at..]) else {
        return Err(Fault::BadLine(number_at(text, at) as u64));
    };
    let question = match question_for(alloc, begins, asked) {
        Ok(Some(question)) => question,
        Ok(None) => return Err(Fault::BadLine(number_at(text, at) as u64)),
        Err(_) => return Err(Fault::NoMemory),
    };
    let Some((answer, rest)) = answer_at(left) else {
        return Err(Fault::BadLine(number_at(text, at) as u64 + 1));
    };
    let next = text.len() - rest.len();
    let Question::Step(step) = question else {
        return Ok(Heard::Went(next, 0, 0));
    };
    match judge_answer(alloc, judge, &step, answer) {
        Ok(Some(Verdict::Allowed(left_open))) => Ok(Heard::Went(next, 1, left_open)),
        Ok(Some(Verdict::Wrong(why))) => {
            let shown = shown_by(judge.history(), &step);
            match tell_wrong(out, number_at(text, at), asked, answer, &why, &shown) {
                Ok(()) => Ok(Heard::Wrong(next, step, why.due)),
                Err(_) => Err(Fault::NoMemory),
            }
        }
        Ok(None) => Err(Fault::BadLine(number_at(text, at) as u64 + 1)),
        Err(_) => Err(Fault::NoMemory),
    }
}

// Judges the exchange at this place of the text: it is past, unless its answer is wrong.
fn judge_right(
    alloc: Global,
    begins: Begins,
    judge: &mut Judge,
    text: &[u8],
    at: usize,
    out: &mut Vec<u8>,
) -> Result<Option<Past>, Fault>
    requires { at < length text.now }
    ensures next { IfOk result
        (λ past. IsRightOrWrong begins (world_of judge.old) text.now at past
        (world_of judge.new) out.old.items out.new.items) }
    ensures fault { IfErr result (λ e. MatchesExchange text.now at e) }
{
    match judge_next(alloc, begins, judge, text, at, out) {
        Ok(Heard::Went(next, allowed, left_open)) => Ok(Some(Past {
            next,
            allowed,
            wrong: 0,
            left_open,
        })),
        Ok(Heard::Wrong(_, _, _)) => Ok(None),
        Err(fault) => Err(fault),
    }
}

// Judges the exchanges from this place of the text on, and says whether all are allowed.
pub(crate) fn judge_exchanges(
    alloc: Global,
    begins: Begins,
    judge: &mut Judge,
    text: &[u8],
    from: usize,
    out: &mut Vec<u8>,
) -> Result<bool, Fault>
    requires { from ≤ length text.now }
    ensures { AreExchanges begins (world_of judge.old) text.now from result
        out.old.items out.new.items }
{
    let mut at = from;
    let mut allowed = 0;
    let mut left_open = 0;
    while at < text.len() {
        match judge_right(alloc, begins, judge, text, at, out) {
            Ok(Some(past)) => {
                at = past.next;
                allowed += past.allowed;
                left_open += past.left_open;
            }
            Ok(None) => return Ok(false),
            Err(fault) => return Err(fault),
        }
    }
    match tell_allowed(out, allowed, left_open) {
        Ok(()) => Ok(true),
        Err(_) => Err(Fault::NoMemory),
    }
}

// Judges the exchange at this place of the text, and goes on after a wrong answer too.
fn judge_past(
    alloc: Global,
    begins: Begins,
    judge: &mut Judge,
    text: &[u8],
    at: usize,
    out: &mut Vec<u8>,
) -> Result<Past, Fault>
    requires { at < length text.now }
    ensures next { IfOk result
        (λ past. IsPastExchange begins (world_of judge.old) text.now at past
        (world_of judge.new) out.old.items out.new.items) }
    ensures fault { IfErr result (λ e. MatchesExchange text.now at e) }
{
    match judge_next(alloc, begins, judge, text, at, out) {
        Ok(Heard::Went(next, allowed, left_open)) => Ok(Past {
            next,
            allowed,
            wrong: 0,
            left_open,
        }),
        Ok(Heard::Wrong(next, step, due)) => match go_on(judge, &step, &due) {
            Ok(()) => Ok(Past {
                next,
                allowed: 0,
                wrong: 1,
                left_open: 0,
            }),
            Err(_) => Err(Fault::NoMemory),
        },
        Err(fault) => Err(fault),
    }
}

// Says at the end of a text whether all are allowed.
fn tell_counts(
    out: &mut Vec<u8>,
    allowed: usize,
    wrong: usize,
    left_open: usize,
) -> Result<bool, Fault>
    ensures { TellsCounts allowed wrong left_open result out.old.items out.new.items }
{
    if wrong == 0 {
        match tell_allowed(out, allowed, left_open) {
            Ok(()) => Ok(true),
            Err(_) => Err(Fault::NoMemory),
        }
    } else {
        match tell_end(out, wrong, allowed, left_open) {
            Ok(()) => Ok(false),
            Err(_) => Err(Fault::NoMemory),
        }
    }
}

// The same as `judge_exchanges`, to the end of the text also after a wrong answer.
pub(crate) fn judge_all_exchanges(
    alloc: Global,
    begins: Begins,
    judge: &mut Judge,
    text: &[u8],
    from: usize,
    out: &mut Vec<u8>,
) -> Result<bool, Fault>
    requires { from ≤ length text.now }
    ensures { AreAllExchanges begins (world_of judge.old) text.now from result
        out.old.items out.new.items }
{
    let mut at = from;
    let mut allowed = 0;
    let mut wrong = 0;
    let mut left_open = 0;
    while at < text.len() {
        match judge_past(alloc, begins, judge, text, at, out) {
            Ok(past) => {
                at = past.next;
                allowed += past.allowed;
                wrong += past.wrong;
                left_open += past.left_open;
            }
            Err(fault) => return Err(fault),
        }
    }
    tell_counts(out, allowed, wrong, left_open)
}
