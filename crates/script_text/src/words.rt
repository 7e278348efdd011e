//! The words of a line, and the values that they spell.

ghost use Rattle.std.specs.Prelude.{◌≡◌, ◌<◌, ◌≤◌, ◌==◌, ◌&&◌, ◌||◌, nat_lt, slice_index, length, position, IfOk, IfSome};
ghost use Rattle.std.specs.Option.{option_map};
ghost use Rattle.script_text.specs.Reading.{cut as cut_of, cut_at as cut_at_of, digits_on, number_of, number_then as number_then_of, column_of, column_then as column_then_of, bound_of, bound_then as bound_then_of, nibble_of, pairs_of, body_of};

use crate::growth::{RefusedGrowth, push, room_for_pairs};
use std::alloc::Global;

// The index of the first of these bytes.
fn place(text: &[u8], byte: u8) -> Option<usize>
    ensures at { result ≡ position (λ b. b == byte) text.now }
    ensures within { IfSome result (λ i. i < length text.now) }
{
    text.iter().position(|b| *b == byte)
}

// The text before the first of these bytes, and the text behind it.
pub(crate) fn cut_at(text: &[u8], byte: u8) -> Option<(&[u8], &[u8])>
    ensures { option_map (λ x. (x.0.now, x.1.now)) result ≡ cut_at_of byte text.now }
{
    let i = place(text, byte)?;
    Some((&text[..i], &text[i + 1..]))
}

/// The word at the front, and the text behind the space after it. (It has a definition of its own, since most lines are cut at spaces.)
pub fn cut(text: &[u8]) -> Option<(&[u8], &[u8])>
    ensures { option_map (λ x. (x.0.now, x.1.now)) result ≡ cut_of text.now }
{
    cut_at(text, b' ')
}

// The number of this type that digits spell, up to a highest.
macro_rules! spelled {
    ($digits:ident, $number:ty, $max:ident) => {{
        let mut n: $number = 0;
        for b in $digits {
            if !b.is_ascii_digit() {
                return None;
            }
            let digit = <$number>::from(*b - b'0');
            match n.checked_mul(10).and_then(|m| m.checked_add(digit)) {
                Some(m) if m <= $max => n = m,
                _ => return None,
            }
        }
        Some(n)
    }};
}

#[tactic(auto, unfolding(crate::specs::Reading::digits_on), using(crate::proofs::ReadingLemmas::read_lemmas))]
fn digits(word: &[u8], max: u64) -> Option<u64>
    ensures value { result ≡ digits_on max 0 word.now }
    ensures bound { IfSome result (λ n. n ≤ max) }
{
    spelled!(word, u64, max)
}

#[tactic(auto, unfolding(crate::specs::Reading::digits_on), using(crate::proofs::ReadingLemmas::read_lemmas))]
fn wide_digits(word: &[u8], max: u128) -> Option<u128>
    ensures value { result ≡ digits_on max 0 word.now }
    ensures bound { IfSome result (λ n. n ≤ max) }
{
    spelled!(word, u128, max)
}

// True where a word is empty, or has a zero in front of another digit.
fn is_misspelled(word: &[u8]) -> bool
    ensures { result
        ≡ (length word.now == 0) || (nat_lt 1 (length word.now) && (slice_index word.now 0 == 48)) }
{
    word.is_empty() || (word.len() > 1 && word[0] == b'0')
}

/// The number of at most `max` that a word spells.
#[tactic(auto, unfolding(crate::specs::Reading::number_of))]
pub fn number(word: &[u8], max: u64) -> Option<u64>
    ensures value { result ≡ number_of max word.now }
    ensures bound { IfSome result (λ n. n ≤ max) }
{
    if is_misspelled(word) {
        return None;
    }
    digits(word, max)
}

// As above, for a number that may need 128 bits, whose arithmetic is slower.
#[tactic(auto, unfolding(crate::specs::Reading::number_of))]
fn wide_number(word: &[u8], max: u128) -> Option<u128>
    ensures value { result ≡ number_of max word.now }
    ensures bound { IfSome result (λ n. n ≤ max) }
{
    if is_misspelled(word) {
        return None;
    }
    wide_digits(word, max)
}

/// A number, and the text behind the space after it.
#[tactic(auto, unfolding(crate::specs::Reading::number_then))]
pub fn number_then(text: &[u8], max: u64) -> Option<(u64, &[u8])>
    ensures value { option_map (λ x. (x.0, x.1.now)) result ≡ number_then_of max text.now }
    ensures bound { IfSome result (λ x. x.0 ≤ max) }
{
    let (word, rest) = cut(text)?;
    let n = number(word, max)?;
    Some((n, rest))
}

#[tactic(auto, unfolding(crate::specs::Reading::signed_of))]
fn column(word: &[u8]) -> Option<i64>
    ensures { result ≡ column_of word.now }
{
    if !word.is_empty() && word[0] == b'-' {
        let n = number(&word[1..], 1 << 63)?;
        if n == 0 {
            None
        } else {
            Some(-((n - 1) as i64) - 1)
        }
    } else {
        let n = number(word, i64::MAX as u64)?;
        Some(n as i64)
    }
}

// A column, and the text behind the space after it.
#[tactic(auto, unfolding(crate::specs::Reading::signed_then))]
pub(crate) fn column_then(text: &[u8]) -> Option<(i64, &[u8])>
    ensures { option_map (λ x. (x.0, x.1.now)) result ≡ column_then_of text.now }
{
    let (word, rest) = cut(text)?;
    let c = column(word)?;
    Some((c, rest))
}

// A bound of a cursor in an index.
#[tactic(auto, unfolding(crate::specs::Reading::signed_of))]
pub(crate) fn bound(word: &[u8]) -> Option<i128>
    ensures { result ≡ bound_of word.now }
{
    if !word.is_empty() && word[0] == b'-' {
        let n = wide_number(&word[1..], 1 << 127)?;
        if n == 0 {
            None
        } else {
            Some(-((n - 1) as i128) - 1)
        }
    } else {
        let n = wide_number(word, i128::MAX as u128)?;
        Some(n as i128)
    }
}

// A bound, and the text behind the space after it.
#[tactic(auto, unfolding(crate::specs::Reading::signed_then))]
pub(crate) fn bound_then(text: &[u8]) -> Option<(i128, &[u8])>
    ensures { option_map (λ x. (x.0, x.1.now)) result ≡ bound_then_of text.now }
{
    let (word, rest) = cut(text)?;
    let b = bound(word)?;
    Some((b, rest))
}

#[tactic(auto, unfolding(crate::specs::Reading::nibble_of))]
fn nibble(c: u8) -> Option<u8>
    ensures value { result ≡ nibble_of c }
    ensures small { IfSome result (λ n. n < 16) }
{
    match c {
        b'0'..=b'9' => Some(c - b'0'),
        b'a'..=b'f' => Some(c - b'a' + 10),
        _ => None,
    }
}

#[tactic(auto, using(crate::proofs::ReadingLemmas::pair_lemmas))]
fn pairs(alloc: Global, word: &[u8]) -> Result<Option<Vec<u8>>, RefusedGrowth>
    ensures { IfOk result (λ o. option_map (λ v. v.items) o ≡ pairs_of word.now) }
{
    if word.len() % 2 != 0 {
        return Ok(None);
    }
    let mut bytes = room_for_pairs(alloc, word)?;
    for i in 0..word.len() / 2 {
        let Some(high) = nibble(word[2 * i]) else {
            return Ok(None);
        };
        let Some(low) = nibble(word[2 * i + 1]) else {
            return Ok(None);
        };
        push(&mut bytes, 16 * high + low)?;
    }
    Ok(Some(bytes))
}

// The bytes of a body: two digits each, or a minus for none.
#[tactic(auto, unfolding(crate::specs::Reading::body_of))]
pub(crate) fn body(alloc: Global, word: &[u8]) -> Result<Option<Vec<u8>>, RefusedGrowth>
    ensures { IfOk result (λ o. option_map (λ v. v.items) o ≡ body_of word.now) }
{
    match word {
        [] => Ok(None),
        [b'-'] => Ok(Some(Vec::new(alloc))),
        _ => pairs(alloc, word),
    }
}
