//! The first line, and the settings that it spells.

ghost use Rattle.std.specs.Prelude.{◌≡◌};
ghost use Rattle.std.specs.Option.{option_map};
ghost use Rattle.script_text.specs.Grammar.{SpellsSettings};
ghost use Rattle.script_text.specs.Reading.{number_then as number_then_of, flag_of, flags4_of, heading_of, settings_at as settings_at_of};

use crate::words::{cut, number_then};
use calls::Settings;
use tuple_header::COLUMNS;

#[tactic(auto, unfolding(crate::specs::Reading::flag_of))]
fn flag(c: u8) -> Option<bool>
    ensures { result ≡ flag_of c }
{
    match c {
        b'0' => Some(false),
        b'1' => Some(true),
        _ => None,
    }
}

#[tactic(auto, unfolding(crate::specs::Reading::flags4_of))]
fn flags(word: &[u8]) -> Option<[bool; COLUMNS]>
    ensures { result ≡ flags4_of word.now }
{
    if word.len() != 4 {
        return None;
    }
    let a = flag(word[0])?;
    let b = flag(word[1])?;
    let c = flag(word[2])?;
    let d = flag(word[3])?;
    Some([a, b, c, d])
}

fn number32_then(text: &[u8]) -> Option<(u32, &[u8])>
    ensures { option_map (λ x. (x.0, x.1.now)) result ≡ number_then_of 4294967295 text.now }
{
    let (n, rest) = number_then(text, u64::from(u32::MAX))?;
    Some((n as u32, rest))
}

#[tactic(auto, unfolding(crate::specs::Reading::heading_of))]
fn heading(text: &[u8]) -> Option<Settings>
    ensures { result ≡ heading_of text.now }
{
    let (max_pages, rest) = number32_then(text)?;
    let (stop_age, rest) = number32_then(rest)?;
    let (freeze_min_age, rest) = number32_then(rest)?;
    let (first_xid, rest) = number32_then(rest)?;
    let (dead_limit, rest) = number32_then(rest)?;
    let indexed = flags(rest)?;
    Some(Settings {
        max_pages,
        stop_age,
        freeze_min_age,
        first_xid,
        dead_limit,
        indexed,
    })
}

#[tactic(auto, unfolding(crate::specs::Reading::settings_at))]
fn read_settings(line: &[u8]) -> Option<Settings>
    ensures { result ≡ settings_at_of line.now }
{
    let (verb, rest) = cut(line)?;
    if verb == b"heap".as_slice() {
        heading(rest)
    } else {
        None
    }
}

/// The settings that a first line spells, in range or not. The line has no line feed. ([`read_settings`] says what is read. This says
/// what is spelled.)
pub fn settings_at(line: &[u8]) -> Option<Settings>
    ensures { SpellsSettings line.now result }
{
    read_settings(line)
}
