//! Cuts a transcript into the lines that were asked, and their answers.

ghost use Rattle.std.specs.Prelude.{◌≡◌, ◌+◌, ◌<◌, ◌==◌, ◌&&◌, drop, length, slice_index};
ghost use Rattle.std.specs.Option.{option_map};
ghost use Rattle.transcript.specs.Transcripts.{is_prompted as is_prompted_of, is_next_or_end as is_next_or_end_of, line_ends as line_ends_of};
ghost use Rattle.transcript.specs.Cutting.{answer_in, question_in};

use reply_text::cut_at;

// Does a prompt stand at the front?
fn is_prompted(text: &[u8]) -> bool
    ensures { result ≡ is_prompted_of text.now }
{
    text.len() > 1 && text[0] == b'>' && text[1] == b' '
}

// Is the next exchange at the front, or nothing?
fn is_next_or_end(text: &[u8]) -> bool
    ensures { result ≡ is_next_or_end_of text.now }
{
    text.is_empty() || is_prompted(text)
}

// The line behind the prompt at the front, and the text behind its line feed.
pub(crate) fn question_at(text: &[u8]) -> Option<(&[u8], &[u8])>
    ensures { option_map (λ p. (p.0.now, p.1.now)) result ≡ question_in text.now }
{
    if is_prompted(text) {
        cut_at(&text[2..], b'\n')
    } else {
        None
    }
}

// Does the answer end with the byte at this place?
fn ends_at(text: &[u8], i: usize) -> bool
    requires { i < length text.now }
    ensures { result
        ≡ (slice_index text.now i == 10) && is_next_or_end_of (drop (i + 1) text.now) }
{
    text[i] == b'\n' && is_next_or_end(&text[i + 1..])
}

// The answer at the front, up to the next prompt or the end, and the text behind its line feed.
pub(crate) fn answer_at(text: &[u8]) -> Option<(&[u8], &[u8])>
    ensures { option_map (λ p. (p.0.now, p.1.now)) result ≡ answer_in text.now }
{
    for i in 0..text.len() {
        if ends_at(text, i) {
            return Some((&text[..i], &text[i + 1..]));
        }
    }
    None
}

// How many lines end in the text.
pub(crate) fn line_ends(text: &[u8]) -> usize
    ensures { result ≡ line_ends_of text.now }
{
    text.iter().filter(|b| **b == b'\n').count()
}
