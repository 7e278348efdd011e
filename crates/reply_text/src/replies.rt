//! The text of a reply, and the reply that it spells.

ghost use Rattle.std.specs.Prelude.{◌≡◌, ◌++◌, IfOk};
ghost use Rattle.std.specs.Option.{option_map};
ghost use Rattle.reply_text.specs.Replies.{SpellsReply};
ghost use Rattle.reply_text.specs.Reading.{row_sayings, saying_in, told, told_of, vacuum_sayings};

use crate::refusals::refusal_named;
use crate::rows::{keys, rows};
use crate::words::{OutOfMemory, cut, is, number, table_row};
use calls::{Piece, Reply};
use std::alloc::Global;

// What a vacuum did, or where it ended.
fn vacuum_reply(alloc: Global, word: &[u8], rest: &[u8]) -> Result<Option<Reply>, OutOfMemory>
    ensures { IfOk result
        (λ o. option_map told o ≡ saying_in vacuum_sayings word.now rest.now) }
{
    if is(word, b"heap") {
        let page = number(alloc, rest, u64::from(u32::MAX))?;
        Ok(page.map(|page| Reply::Worked(Piece::Heap(page as u32))))
    } else if is(word, b"index") {
        let index = number(alloc, rest, 255)?;
        Ok(index.map(|index| Reply::Worked(Piece::Index(index as u8))))
    } else if is(word, b"free") {
        let page = number(alloc, rest, u64::from(u32::MAX))?;
        Ok(page.map(|page| Reply::Worked(Piece::Free(page as u32))))
    } else if is(word, b"ended") {
        let first = number(alloc, rest, u64::from(u32::MAX))?;
        Ok(first.map(|first| Reply::Ended(first as u32)))
    } else {
        Ok(None)
    }
}

// A reply that begins with this word.
fn reply_for(alloc: Global, word: &[u8], rest: &[u8]) -> Result<Option<Reply>, OutOfMemory>
    ensures { IfOk result
        (λ o. option_map told o ≡ saying_in (row_sayings ++ vacuum_sayings) word.now rest.now) }
{
    if is(word, b"row") {
        Ok(table_row(alloc, rest)?.map(|row| Reply::Found(Some(row))))
    } else if is(word, b"error") {
        Ok(refusal_named(alloc, rest)?.map(|refusal| Reply::Refused(refusal)))
    } else if is(word, b"rows") {
        Ok(rows(alloc, rest)?.map(|found| Reply::Rows(found)))
    } else if is(word, b"keys") {
        Ok(keys(alloc, rest)?.map(|found| Reply::Keys(found)))
    } else {
        vacuum_reply(alloc, word, rest)
    }
}

#[tactic(auto, unfolding(crate::specs::Reading::told_of))]
fn read_reply(alloc: Global, text: &[u8]) -> Result<Option<Reply>, OutOfMemory>
    ensures { IfOk result (λ o. option_map told o ≡ told_of text.now) }
{
    if is(text, b"ok") {
        Ok(Some(Reply::Done))
    } else if is(text, b"none") {
        Ok(Some(Reply::Found(None)))
    } else if is(text, b"committed") {
        Ok(Some(Reply::Committed))
    } else if is(text, b"rolled back") {
        Ok(Some(Reply::RolledBack))
    } else if is(text, b"end") {
        Ok(Some(Reply::End))
    } else {
        match cut(text) {
            Some((word, rest)) => reply_for(alloc, word, rest),
            None => Ok(None),
        }
    }
}

/// Reads the reply that a text spells, if it spells one. The text has no line feed at its end. ([`read_reply`] says what is read. This says
/// what is spelled.)
pub fn reply_at(alloc: Global, text: &[u8]) -> Result<Option<Reply>, OutOfMemory>
    ensures { IfOk result (λ o. SpellsReply text.now o) }
{
    read_reply(alloc, text)
}
