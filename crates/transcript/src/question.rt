//! The step that a line asks for.

ghost use Rattle.std.specs.Prelude.{◌≡◌, IfOk};
ghost use Rattle.transcript.specs.Transcripts.{is_view as is_view_of, is_view_word as is_view_word_of};
ghost use Rattle.transcript.specs.Judging.{IsAskedBy};

use crate::begins::Begins;
use calls::Step;
use reply_text::cut;
use script_text::{Line, RefusedGrowth, line_at};
use std::alloc::Global;

/// What a line asks for.
#[derive(Drop)]
pub(crate) enum Question {
    /// This step.
    Step(Step),
    /// To be shown something, which is no step.
    Look,
}

fn is_view_word(word: &[u8]) -> bool
    ensures { result ≡ is_view_word_of word.now }
{
    word == b"explain".as_slice()
        || word == b"session".as_slice()
        || word == b"fate".as_slice()
        || word == b"plan".as_slice()
}

// Is it a line of `heapview`?
fn is_view(line: &[u8]) -> bool
    ensures { result ≡ is_view_of line.now }
{
    if line == b"horizon".as_slice() || line == b"vacuum".as_slice() {
        return true;
    }
    match cut(line) {
        Some((word, _)) => is_view_word(word),
        None => false,
    }
}

// The step or the look that a line asks for, if it does.
pub(crate) fn question_for(
    alloc: Global,
    begins: Begins,
    line: &[u8],
) -> Result<Option<Question>, RefusedGrowth>
    ensures { IfOk result (λ o. IsAskedBy begins line.now o) }
{
    match line_at(alloc, line)? {
        Some(Line::Do(step)) => Ok(Some(Question::Step(begins.judged_as(step)))),
        Some(Line::VacuumFinish) => Ok(Some(Question::Step(Step::VacuumStep))),
        Some(_) => Ok(Some(Question::Look)),
        None if is_view(line) => Ok(Some(Question::Look)),
        None => Ok(None),
    }
}
