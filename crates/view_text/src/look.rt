//! A line that is a look, and what it asks.

ghost use Rattle.std.specs.Prelude.{◌≡◌};
ghost use Rattle.view_text.specs.Looks.{SpellsLook};
ghost use Rattle.view_text.specs.Reading.{explain_of, fate_of, session_of, plan_of, look_of as look_words, look_at as look_in};

use script_text::{cut, number, number_then};

/// A look: it asks what an engine holds, and is no step.
#[derive(Clone, Copy, Debug, PartialEq, Eq)]
pub enum Look {
    /// Why a session finds the row of a key, or none.
    Explain(u8, u64),
    /// What a session holds.
    Session(u8),
    /// The horizon, and the session that holds it back.
    Horizon,
    /// What pruning would do to a slot of a page.
    Fate(u32, u16),
    /// The plan that a pruning of a page would follow.
    Plan(u32),
    /// The vacuum, if one is running.
    Vacuum,
}

// A session and a key.
#[tactic(auto, unfolding(crate::specs::Reading::explain_of))]
fn explain(text: &[u8]) -> Option<Look>
    ensures { result ≡ explain_of text.now }
{
    let (s, rest) = number_then(text, 255)?;
    let key = number(rest, u64::MAX)?;
    Some(Look::Explain(s as u8, key))
}

// A page and a slot.
#[tactic(auto, unfolding(crate::specs::Reading::fate_of))]
fn fate(text: &[u8]) -> Option<Look>
    ensures { result ≡ fate_of text.now }
{
    let (page, rest) = number_then(text, u64::from(u32::MAX))?;
    let slot = number(rest, u64::from(u16::MAX))?;
    Some(Look::Fate(page as u32, slot as u16))
}

#[tactic(auto, unfolding(crate::specs::Reading::session_of))]
fn session(word: &[u8]) -> Option<Look>
    ensures { result ≡ session_of word.now }
{
    let s = number(word, 255)?;
    Some(Look::Session(s as u8))
}

#[tactic(auto, unfolding(crate::specs::Reading::plan_of))]
fn plan(word: &[u8]) -> Option<Look>
    ensures { result ≡ plan_of word.now }
{
    let page = number(word, u64::from(u32::MAX))?;
    Some(Look::Plan(page as u32))
}

// Reads a look of several words: the first, and those behind it.
fn look_for(word: &[u8], rest: &[u8]) -> Option<Look>
    ensures { result ≡ look_words word.now rest.now }
{
    if word == b"explain".as_slice() {
        explain(rest)
    } else if word == b"session".as_slice() {
        session(rest)
    } else if word == b"fate".as_slice() {
        fate(rest)
    } else if word == b"plan".as_slice() {
        plan(rest)
    } else {
        None
    }
}

#[tactic(auto, unfolding(crate::specs::Reading::look_at))]
fn read_look(line: &[u8]) -> Option<Look>
    ensures { result ≡ look_in line.now }
{
    if line == b"horizon".as_slice() {
        return Some(Look::Horizon);
    }
    if line == b"vacuum".as_slice() {
        return Some(Look::Vacuum);
    }
    match cut(line) {
        Some((word, rest)) => look_for(word, rest),
        None => None,
    }
}

/// Reads a line, if it is a look. The line has no line feed. ([`read_look`] says what is read. This says what is spelled.)
pub fn look_at(line: &[u8]) -> Option<Look>
    ensures { SpellsLook line.now result }
{
    read_look(line)
}
