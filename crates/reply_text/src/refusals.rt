//! The number and the name of a refusal.

ghost use Rattle.std.specs.Prelude.{◌≡◌, ◌++◌, IfOk};
ghost use Rattle.reply_text.specs.Reading.{busy_of, other_refusals, refusal_in, refusal_named as refusal_named_of, usual_refusals};

use crate::words::{OutOfMemory, cut, is, number};
use calls::Refusal;
use std::alloc::Global;

// Reads one that comes less often.
fn other_refusal(words: &[u8]) -> Option<Refusal>
    ensures { result ≡ refusal_in other_refusals words.now }
{
    if is(words, b"14 NoRoom") {
        Some(Refusal::NoRoom)
    } else if is(words, b"15 NeedsFreeze") {
        Some(Refusal::NeedsFreeze)
    } else if is(words, b"16 NoMemory") {
        Some(Refusal::NoMemory)
    } else if is(words, b"17 VacuumRunning") {
        Some(Refusal::VacuumRunning)
    } else if is(words, b"18 NoVacuum") {
        Some(Refusal::NoVacuum)
    } else if is(words, b"19 NoSuchPage") {
        Some(Refusal::NoSuchPage)
    } else if is(words, b"20 NoSuchIndex") {
        Some(Refusal::NoSuchIndex)
    } else if is(words, b"21 Stale") {
        Some(Refusal::Stale)
    } else if is(words, b"22 IndexTooNew") {
        Some(Refusal::IndexTooNew)
    } else if is(words, b"23 NoSuchSession") {
        Some(Refusal::NoSuchSession)
    } else if is(words, b"24 BadBounds") {
        Some(Refusal::BadBounds)
    } else if is(words, b"25 IndexBusy") {
        Some(Refusal::IndexBusy)
    } else {
        None
    }
}

// Reads one that has nothing to say besides; the most usual come first.
fn bare_refusal(words: &[u8]) -> Option<Refusal>
    ensures { result ≡ refusal_in (usual_refusals ++ other_refusals) words.now }
{
    if is(words, b"1 NotOpen") {
        Some(Refusal::NotOpen)
    } else if is(words, b"2 AlreadyOpen") {
        Some(Refusal::AlreadyOpen)
    } else if is(words, b"3 Failed") {
        Some(Refusal::Failed)
    } else if is(words, b"4 AlreadyThere") {
        Some(Refusal::AlreadyThere)
    } else if is(words, b"5 NotThere") {
        Some(Refusal::NotThere)
    } else if is(words, b"6 Conflict") {
        Some(Refusal::Conflict)
    } else if is(words, b"8 Deadlock") {
        Some(Refusal::Deadlock)
    } else if is(words, b"9 CursorOpen") {
        Some(Refusal::CursorOpen)
    } else if is(words, b"10 NoCursor") {
        Some(Refusal::NoCursor)
    } else if is(words, b"11 TooDeep") {
        Some(Refusal::TooDeep)
    } else if is(words, b"12 NoSavepoint") {
        Some(Refusal::NoSavepoint)
    } else if is(words, b"13 TooLarge") {
        Some(Refusal::TooLarge)
    } else {
        other_refusal(words)
    }
}

// Busy, and the session that holds the key.
#[tactic(auto, unfolding(crate::specs::Reading::busy_of))]
fn busy(alloc: Global, words: &[u8]) -> Result<Option<Refusal>, OutOfMemory>
    ensures { IfOk result (λ o. o ≡ busy_of words.now) }
{
    let Some((first, rest)) = cut(words) else {
        return Ok(None);
    };
    let Some((name, session)) = cut(rest) else {
        return Ok(None);
    };
    if is(first, b"7") && is(name, b"Busy") {
        Ok(number(alloc, session, 255)?.map(|s| Refusal::Busy(s as u8)))
    } else {
        Ok(None)
    }
}

// The refusal that the words behind `error` name.
#[tactic(auto, unfolding(crate::specs::Reading::refusal_named))]
pub(crate) fn refusal_named(alloc: Global, words: &[u8]) -> Result<Option<Refusal>, OutOfMemory>
    ensures { IfOk result (λ o. o ≡ refusal_named_of words.now) }
{
    match busy(alloc, words)? {
        Some(refusal) => Ok(Some(refusal)),
        None => Ok(bare_refusal(words)),
    }
}
