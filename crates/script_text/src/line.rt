//! A line behind the first, and what it asks for.

ghost use Rattle.std.specs.Prelude.{◌≡◌, ◌++◌, IfOk};
ghost use Rattle.std.specs.Option.{option_map};
ghost use Rattle.std.specs.Str.{bytes_eq};
ghost use Rattle.script_text.specs.Grammar.{Spells};
ghost use Rattle.script_text.specs.Reading.{number_of, row_words_of, key_words_of, count_words_of, page_words_of, range_words_of, bounds_words_of, plan_words_of, vacuum_line_of, line_in, all_verbs, other_verbs, numbered_steps, as_verbs, line_at as line_at_of};

use crate::growth::RefusedGrowth;
use crate::plan::plan;
use crate::words::{body, bound, bound_then, column_then, cut, number, number_then};
use calls::{Mode, PlanIn, RowIn, Step};
use std::alloc::Global;

/// The longest line, its line feed not counted.
pub const MOST_LINE_BYTES: usize = 4096;

/// A line of a script, as it was read.
#[derive(Debug, Drop)]
pub enum Line {
    /// A step of the engine.
    Do(Step),
    /// Steps of the vacuum until one does no work, 2^64 - 1 at most.
    VacuumFinish,
    /// The next id, and that below which all are frozen.
    Ids,
    /// The slots of a page.
    Page(u32),
    /// The entries of an index.
    Entries(u8),
}

// True where a text is spelled so. A branch on this is proved in half the time of one on `==`, which lends the literal anew.
fn is(text: &[u8], spelling: &[u8]) -> bool
    ensures { result ≡ bytes_eq text.now spelling.now }
{
    text == spelling
}

// A session and a row.
#[tactic(auto, unfolding(crate::specs::Reading::row_words_of))]
fn row(alloc: Global, text: &[u8]) -> Result<Option<(u8, RowIn)>, RefusedGrowth>
    ensures { IfOk result (λ o. option_map (λ p. (p.0, p.1)) o ≡ row_words_of text.now) }
{
    let Some((s, rest)) = number_then(text, 255) else {
        return Ok(None);
    };
    let Some((key, rest)) = number_then(rest, u64::MAX) else {
        return Ok(None);
    };
    let Some((c0, rest)) = column_then(rest) else {
        return Ok(None);
    };
    let Some((c1, rest)) = column_then(rest) else {
        return Ok(None);
    };
    let Some((c2, rest)) = column_then(rest) else {
        return Ok(None);
    };
    let Some((c3, rest)) = column_then(rest) else {
        return Ok(None);
    };
    let Some(body) = body(alloc, rest)? else {
        return Ok(None);
    };
    let row = RowIn {
        key,
        cols: [c0, c1, c2, c3],
        body,
    };
    Ok(Some((s as u8, row)))
}

// A session and a key.
#[tactic(auto, unfolding(crate::specs::Reading::key_words_of))]
fn key(text: &[u8]) -> Option<(u8, u64)>
    ensures { option_map (λ p. (p.0, p.1)) result ≡ key_words_of text.now }
{
    let (s, rest) = number_then(text, 255)?;
    let key = number(rest, u64::MAX)?;
    Some((s as u8, key))
}

// A session and how many rows.
#[tactic(auto, unfolding(crate::specs::Reading::count_words_of))]
fn count(text: &[u8]) -> Option<(u8, u16)>
    ensures { option_map (λ p. (p.0, p.1)) result ≡ count_words_of text.now }
{
    let (s, rest) = number_then(text, 255)?;
    let n = number(rest, u64::from(u16::MAX))?;
    Some((s as u8, n as u16))
}

// A session and a page.
#[tactic(auto, unfolding(crate::specs::Reading::page_words_of))]
fn session_and_page(text: &[u8]) -> Option<(u8, u32)>
    ensures { option_map (λ p. (p.0, p.1)) result ≡ page_words_of text.now }
{
    let (s, rest) = number_then(text, 255)?;
    let page = number(rest, u64::from(u32::MAX))?;
    Some((s as u8, page as u32))
}

// A session, an index and two bounds.
#[tactic(auto, unfolding(crate::specs::Reading::range_words_of))]
fn range(text: &[u8]) -> Option<(u8, u8, i128, i128)>
    ensures { option_map (λ p. (p.0, p.1, p.2, p.3)) result ≡ range_words_of text.now }
{
    let (s, rest) = number_then(text, 255)?;
    let (index, rest) = number_then(rest, 255)?;
    let (low, rest) = bound_then(rest)?;
    let high = bound(rest)?;
    Some((s as u8, index as u8, low, high))
}

// A session and two bounds.
#[tactic(auto, unfolding(crate::specs::Reading::bounds_words_of))]
fn bounds(text: &[u8]) -> Option<(u8, i128, i128)>
    ensures { option_map (λ p. (p.0, p.1, p.2)) result ≡ bounds_words_of text.now }
{
    let (s, rest) = number_then(text, 255)?;
    let (low, rest) = bound_then(rest)?;
    let high = bound(rest)?;
    Some((s as u8, low, high))
}

// A page and a plan.
#[tactic(auto, unfolding(crate::specs::Reading::plan_words_of))]
fn page_and_plan(alloc: Global, text: &[u8]) -> Result<Option<(u32, PlanIn)>, RefusedGrowth>
    ensures { IfOk result (λ o. option_map (λ p. (p.0, p.1)) o ≡ plan_words_of text.now) }
{
    let Some((page, rest)) = number_then(text, u64::from(u32::MAX)) else {
        return Ok(None);
    };
    let Some(plan) = plan(alloc, rest)? else {
        return Ok(None);
    };
    Ok(Some((page as u32, plan)))
}

// A session, an index or a column.
fn number8(word: &[u8]) -> Option<u8>
    ensures { result ≡ number_of 255 word.now }
{
    let n = number(word, 255)?;
    Some(n as u8)
}

fn page(word: &[u8]) -> Option<u32>
    ensures { result ≡ number_of 4294967295 word.now }
{
    let p = number(word, u64::from(u32::MAX))?;
    Some(p as u32)
}

// Reads a line that begins with `vacuum`.
fn vacuum_line(words: &[u8]) -> Option<Line>
    ensures { result ≡ vacuum_line_of words.now }
{
    if is(words, b"step") {
        Some(Line::Do(Step::VacuumStep))
    } else if is(words, b"finish") {
        Some(Line::VacuumFinish)
    } else if is(words, b"begin normal") {
        Some(Line::Do(Step::VacuumBegin(Mode::Normal)))
    } else if is(words, b"begin aggressive") {
        Some(Line::Do(Step::VacuumBegin(Mode::Aggressive)))
    } else if is(words, b"cancel") {
        Some(Line::Do(Step::VacuumCancel))
    } else {
        None
    }
}

// Reads a line that begins with this word, and neither makes a row or a plan nor is a step with one number below 256.
fn other_line(word: &[u8], rest: &[u8]) -> Option<Line>
    ensures { result ≡ line_in other_verbs word.now rest.now }
{
    if is(word, b"get") {
        key(rest).map(|(s, key)| Line::Do(Step::Get(s, key)))
    } else if is(word, b"delete") {
        key(rest).map(|(s, key)| Line::Do(Step::Delete(s, key)))
    } else if is(word, b"next") {
        count(rest).map(|(s, n)| Line::Do(Step::Next(s, n)))
    } else if is(word, b"openindex") {
        range(rest).map(|(s, index, low, high)| Line::Do(Step::OpenIndex(s, index, low, high)))
    } else if is(word, b"openkeys") {
        bounds(rest).map(|(s, low, high)| Line::Do(Step::OpenKeys(s, low, high)))
    } else if is(word, b"takepage") {
        session_and_page(rest).map(|(s, page)| Line::Do(Step::TakePage(s, page)))
    } else if is(word, b"prune") {
        page(rest).map(|p| Line::Do(Step::Prune(p)))
    } else if is(word, b"vacuum") {
        vacuum_line(rest)
    } else if is(word, b"page") {
        page(rest).map(|p| Line::Page(p))
    } else if is(word, b"entries") {
        number8(rest).map(|i| Line::Entries(i))
    } else {
        None
    }
}

// Reads a line that begins with this word, and makes no row and no plan. Most such lines begin or end a transaction. So steps with one
// number are asked for first.
fn unwritten_line(word: &[u8], rest: &[u8]) -> Option<Line>
    ensures { result ≡ line_in (as_verbs numbered_steps ++ other_verbs) word.now rest.now }
{
    if is(word, b"begin") {
        number8(rest).map(|s| Line::Do(Step::Begin(s)))
    } else if is(word, b"beginrc") {
        number8(rest).map(|s| Line::Do(Step::BeginReadCommitted(s)))
    } else if is(word, b"commit") {
        number8(rest).map(|s| Line::Do(Step::Commit(s)))
    } else if is(word, b"abort") {
        number8(rest).map(|s| Line::Do(Step::Abort(s)))
    } else if is(word, b"savepoint") {
        number8(rest).map(|s| Line::Do(Step::Savepoint(s)))
    } else if is(word, b"rollbackto") {
        number8(rest).map(|s| Line::Do(Step::RollbackTo(s)))
    } else if is(word, b"release") {
        number8(rest).map(|s| Line::Do(Step::Release(s)))
    } else if is(word, b"openheap") {
        number8(rest).map(|s| Line::Do(Step::OpenHeap(s)))
    } else if is(word, b"close") {
        number8(rest).map(|s| Line::Do(Step::Close(s)))
    } else if is(word, b"createindex") {
        number8(rest).map(|c| Line::Do(Step::CreateIndex(c)))
    } else {
        other_line(word, rest)
    }
}

// Reads a line that begins with this word. The step of a row or of a plan has memory of its own.
fn line_for(alloc: Global, word: &[u8], rest: &[u8]) -> Result<Option<Line>, RefusedGrowth>
    ensures { IfOk result (λ o. o ≡ line_in all_verbs word.now rest.now) }
{
    if is(word, b"insert") {
        Ok(row(alloc, rest)?.map(|(s, row)| Line::Do(Step::Insert(s, row))))
    } else if is(word, b"update") {
        Ok(row(alloc, rest)?.map(|(s, row)| Line::Do(Step::Update(s, row))))
    } else if is(word, b"apply") {
        Ok(page_and_plan(alloc, rest)?.map(|(p, plan)| Line::Do(Step::ApplyPlan(p, plan))))
    } else {
        Ok(unwritten_line(word, rest))
    }
}

#[tactic(auto, unfolding(crate::specs::Reading::line_at))]
pub(crate) fn read_line(alloc: Global, line: &[u8]) -> Result<Option<Line>, RefusedGrowth>
    ensures { IfOk result (λ o. o ≡ line_at_of line.now) }
{
    if is(line, b"ids") {
        return Ok(Some(Line::Ids));
    }
    match cut(line) {
        Some((word, rest)) => line_for(alloc, word, rest),
        None => Ok(None),
    }
}

/// Reads a line, if it is allowed. The line has no line feed. ([`read_line`] says what is read. This says what is spelled.)
pub fn line_at(alloc: Global, line: &[u8]) -> Result<Option<Line>, RefusedGrowth>
    ensures { IfOk result (λ o. Spells line.now o) }
{
    read_line(alloc, line)
}
