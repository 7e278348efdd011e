//! The words of a reply, and the values that they spell.
//!
//! A number and a row are read as those of a line that asks for them: `script_text` reads lines, and says exactly which.

ghost use Rattle.std.specs.Prelude.{◌≡◌, ◌<◌, ◌≤◌, ◌==◌, ◌++◌, ◌∷◌, [], IfOk, IfSome, OnOk, None, Some, codes, if◌then◌else◌, length, nat_le, position};
ghost use Rattle.std.specs.Option.{option_map};
ghost use Rattle.std.specs.Str.{bytes_eq};
ghost use Rattle.calls.specs.Words.{row_of};
ghost use Rattle.tuple_header.specs.declared.version.TheConstants.{MOST_BODY as MOST_BODY_BYTES};
ghost use Rattle.script_text.specs.Reading.{cut as cut_of, cut_at as cut_at_of, number_of};
ghost use Rattle.reply_text.specs.Reading.{behind as behind_of, table_row_of};
ghost use Rattle.reply_text.specs.Replies.{SpellsStep};

use arrayvec::ArrayVec;
use calls::{Row, RowIn, Step};
use script_text::{Line, line_at};
use std::alloc::Global;
use tuple_header::MOST_BODY;

/// Memory was refused.
#[derive(Clone, Copy, Debug, PartialEq, Eq)]
pub struct OutOfMemory;

// True where a text is spelled so. A branch on this is proved in half the time of one on `==`, which lends the literal anew.
pub(crate) fn is(text: &[u8], spelling: &[u8]) -> bool
    ensures { result ≡ bytes_eq text.now spelling.now }
{
    text == spelling
}

// The index of the first of these bytes.
fn place(text: &[u8], byte: u8) -> Option<usize>
    ensures at { result ≡ position (λ b. b == byte) text.now }
    ensures within { IfSome result (λ i. i < length text.now) }
{
    text.iter().position(|b| *b == byte)
}

/// The text before the first of these bytes, and the text behind it.
pub fn cut_at(text: &[u8], byte: u8) -> Option<(&[u8], &[u8])>
    ensures { option_map (λ x. (x.0.now, x.1.now)) result ≡ cut_at_of byte text.now }
{
    let i = place(text, byte)?;
    Some((&text[..i], &text[i + 1..]))
}

/// The word at the front, and the text behind the space after it. (It has a definition of its own, since most lines are cut at spaces.)
pub fn cut(text: &[u8]) -> Option<(&[u8], &[u8])>
    ensures { option_map (λ x. (x.0.now, x.1.now)) result ≡ cut_of text.now }
{
    cut_at(text, b' ')
}

// The words behind this first one.
#[tactic(auto, unfolding(crate::specs::Reading::behind))]
pub(crate) fn behind<'a>(line: &'a [u8], word: &[u8]) -> Option<&'a [u8]>
    ensures { option_map (λ x. x.now) result ≡ behind_of word.now line.now }
{
    let (first, rest) = cut(line)?;
    if first == word { Some(rest) } else { None }
}

fn put(line: &mut Vec<u8>, words: &[u8]) -> Result<(), OutOfMemory>
    ensures { OnOk result (line.new.items ≡ line.old.items ++ words.now) }
{
    match line.extend_from_slice(words) {
        Ok(()) => Ok(()),
        Err(_) => Err(OutOfMemory),
    }
}

fn line_of(alloc: Global, verb: &[u8], words: &[u8]) -> Result<Vec<u8>, OutOfMemory>
    ensures { IfOk result (λ line. line.items ≡ verb.now ++ words.now) }
{
    let mut line = Vec::new(alloc);
    put(&mut line, verb)?;
    put(&mut line, words)?;
    Ok(line)
}

// The step that a verb asks for with these words behind it.
fn step_of(alloc: Global, verb: &[u8], words: &[u8]) -> Result<Option<Step>, OutOfMemory>
    ensures { IfOk result (λ o. SpellsStep (verb.now ++ words.now) o) }
{
    let text = line_of(alloc, verb, words)?;
    let read = match line_at(alloc, text.as_slice()) {
        Ok(read) => read,
        Err(_) => return Err(OutOfMemory),
    };
    let Some(line) = read else {
        return Ok(None);
    };
    match line {
        Line::Do(step) => Ok(Some(step)),
        _ => Ok(None),
    }
}

// The number of at most `max` that a word spells.
pub(crate) fn number(alloc: Global, word: &[u8], max: u64) -> Result<Option<u64>, OutOfMemory>
    ensures value { IfOk result (λ o. o ≡ number_of max word.now) }
    ensures bound { IfOk result (λ o. IfSome o (λ n. n ≤ max)) }
{
    let Some(step) = step_of(alloc, b"get 0 ", word)? else {
        return Ok(None);
    };
    let Step::Get(s, n) = step else {
        return Ok(None);
    };
    if s != 0 {
        return Ok(None);
    }
    if n > max {
        return Ok(None);
    }
    Ok(Some(n))
}

// The row of the table, if its body is short enough.
fn short_row(row: &RowIn) -> Option<Row>
    ensures { result
        ≡ (if nat_le (length row.now.body) MOST_BODY_BYTES
        then Some (row_of row.now)
        else None) }
{
    let mut body: ArrayVec<u8, MOST_BODY> = ArrayVec::new();
    match body.try_extend_from_slice(row.body.as_slice()) {
        Ok(()) => Some(Row {
            key: row.key,
            cols: row.cols,
            body,
        }),
        Err(_) => None,
    }
}

// A row: its key, its columns and its body.
pub(crate) fn table_row(alloc: Global, words: &[u8]) -> Result<Option<Row>, OutOfMemory>
    ensures { IfOk result (λ o. o ≡ table_row_of words.now) }
{
    let Some(step) = step_of(alloc, b"insert 0 ", words)? else {
        return Ok(None);
    };
    let Step::Insert(s, row) = step else {
        return Ok(None);
    };
    if s == 0 {
        Ok(short_row(&row))
    } else {
        Ok(None)
    }
}
