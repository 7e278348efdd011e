//! The text of a reply.

ghost use Rattle.std.specs.Prelude.{ℕ, ◌≡◌, ◌≢◌, ◌+◌, ◌<◌, ◌/◌, ◌%◌, ◌∷◌, ◌++◌, OnOk, false};
ghost use Rattle.std.specs.List.{flat_map};
ghost use Rattle.std.specs.Fmt.{decimal, signed_decimal, digit_glyph};
ghost use Rattle.script_text.specs.Grammar.{spaced, hex_text, body_text, row_text, with_feed};
ghost use Rattle.script_text.specs.Answers.{refusal_text, found_text, row_lines, key_text, key_lines, piece_text, reply_text};

use crate::growth::{RefusedGrowth, extend, push};
use crate::page::label;
use calls::{Piece, Refusal, Reply, Row};
use itoa::Buffer;

/// Adds a number.
pub fn put_unsigned(out: &mut Vec<u8>, n: u64) -> Result<(), RefusedGrowth>
    ensures { OnOk result (out.new.items ≡ out.old.items ++ decimal n) }
{
    let mut buffer = Buffer::new();
    extend(out, buffer.format(n).as_bytes())
}

fn column(out: &mut Vec<u8>, c: i64) -> Result<(), RefusedGrowth>
    ensures { OnOk result (out.new.items ≡ out.old.items ++ spaced (signed_decimal c)) }
{
    // a column that is not used
    if c == 0 {
        return extend(out, b" 0");
    }
    let mut buffer = Buffer::new();
    push(out, b' ')?;
    extend(out, buffer.format(c).as_bytes())
}

pub(crate) fn columns(out: &mut Vec<u8>, cols: &[i64]) -> Result<(), RefusedGrowth>
    ensures { OnOk result
        (out.new.items ≡ out.old.items ++ flat_map (λ c. spaced (signed_decimal c)) cols.now) }
{
    for c in cols {
        column(out, *c)?;
    }
    Ok(())
}

fn glyph(n: u8) -> u8
    requires { n < 16 }
    ensures { result ≡ digit_glyph false n }
{
    if n < 10 { b'0' + n } else { b'a' + (n - 10) }
}

/// Two hexadecimal digits for each byte, the higher first.
pub fn hex(out: &mut Vec<u8>, bytes: &[u8]) -> Result<(), RefusedGrowth>
    ensures { OnOk result (out.new.items ≡ out.old.items ++ hex_text bytes.now) }
{
    for b in bytes {
        let pair = [glyph(*b / 16), glyph(*b % 16)];
        extend(out, pair.as_slice())?;
    }
    Ok(())
}

pub(crate) fn body(out: &mut Vec<u8>, bytes: &[u8]) -> Result<(), RefusedGrowth>
    ensures { OnOk result (out.new.items ≡ out.old.items ++ spaced (body_text bytes.now)) }
{
    push(out, b' ')?;
    if bytes.is_empty() {
        push(out, b'-')
    } else {
        hex(out, bytes)
    }
}

fn row(out: &mut Vec<u8>, row: &Row) -> Result<(), RefusedGrowth>
    ensures { OnOk result
        (out.new.items ≡ out.old.items ++ row_text row.now.key row.now.cols row.now.body.items) }
{
    put_unsigned(out, row.key)?;
    columns(out, row.cols.as_slice())?;
    body(out, row.body.as_slice())
}

// The line of a row.
fn put_found(out: &mut Vec<u8>, one: &Row) -> Result<(), RefusedGrowth>
    ensures { OnOk result (out.new.items ≡ out.old.items ++ found_text one.now) }
{
    extend(out, b"row ")?;
    row(out, one)
}

// A line feed, and then the line of a row.
fn row_line(out: &mut Vec<u8>, one: &Row) -> Result<(), RefusedGrowth>
    ensures { OnOk result (out.new.items ≡ out.old.items ++ 10 ∷ found_text one.now) }
{
    push(out, b'\n')?;
    put_found(out, one)
}

fn rows(out: &mut Vec<u8>, rows: &[Row]) -> Result<(), RefusedGrowth>
    ensures { OnOk result (out.new.items ≡ out.old.items ++ row_lines rows.now) }
{
    for one in rows {
        row_line(out, one)?;
    }
    Ok(())
}

// A line feed, and then the line of a key.
fn key_line(out: &mut Vec<u8>, key: u64) -> Result<(), RefusedGrowth>
    ensures { OnOk result (out.new.items ≡ out.old.items ++ 10 ∷ key_text key) }
{
    push(out, b'\n')?;
    label(out, b"key", key)
}

fn keys(out: &mut Vec<u8>, keys: &[u64]) -> Result<(), RefusedGrowth>
    ensures { OnOk result (out.new.items ≡ out.old.items ++ key_lines keys.now) }
{
    for key in keys {
        key_line(out, *key)?;
    }
    Ok(())
}

// The number and the name of a refusal that has nothing to say besides.
fn bare_refusal(refusal: Refusal) -> &'static [u8]
    requires { (s : ℕ) → refusal ≢ Refusal.Busy s }
    ensures { result.now ≡ refusal_text refusal }
{
    match refusal {
        Refusal::NotOpen => b"1 NotOpen",
        Refusal::AlreadyOpen => b"2 AlreadyOpen",
        Refusal::Failed => b"3 Failed",
        Refusal::AlreadyThere => b"4 AlreadyThere",
        Refusal::NotThere => b"5 NotThere",
        Refusal::Conflict => b"6 Conflict",
        // which is never asked for
        Refusal::Busy(_) => b"7 Busy",
        Refusal::Deadlock => b"8 Deadlock",
        Refusal::CursorOpen => b"9 CursorOpen",
        Refusal::NoCursor => b"10 NoCursor",
        Refusal::TooDeep => b"11 TooDeep",
        Refusal::NoSavepoint => b"12 NoSavepoint",
        Refusal::TooLarge => b"13 TooLarge",
        Refusal::NoRoom => b"14 NoRoom",
        Refusal::NeedsFreeze => b"15 NeedsFreeze",
        Refusal::NoMemory => b"16 NoMemory",
        Refusal::VacuumRunning => b"17 VacuumRunning",
        Refusal::NoVacuum => b"18 NoVacuum",
        Refusal::NoSuchPage => b"19 NoSuchPage",
        Refusal::NoSuchIndex => b"20 NoSuchIndex",
        Refusal::Stale => b"21 Stale",
        Refusal::IndexTooNew => b"22 IndexTooNew",
        Refusal::NoSuchSession => b"23 NoSuchSession",
        Refusal::BadBounds => b"24 BadBounds",
        Refusal::IndexBusy => b"25 IndexBusy",
    }
}

#[tactic(auto, unfolding(crate::specs::Answers::labelled))]
fn refusal(out: &mut Vec<u8>, refusal: Refusal) -> Result<(), RefusedGrowth>
    ensures { OnOk result (out.new.items ≡ out.old.items ++ refusal_text refusal) }
{
    match refusal {
        Refusal::Busy(s) => label(out, b"7 Busy", u64::from(s)),
        _ => extend(out, bare_refusal(refusal)),
    }
}

// The work that a step of a vacuum did.
fn piece(out: &mut Vec<u8>, piece: Piece) -> Result<(), RefusedGrowth>
    ensures { OnOk result (out.new.items ≡ out.old.items ++ piece_text piece) }
{
    match piece {
        Piece::Heap(page) => label(out, b"heap", u64::from(page)),
        Piece::Index(index) => label(out, b"index", u64::from(index)),
        Piece::Free(page) => label(out, b"free", u64::from(page)),
    }
}

fn text(out: &mut Vec<u8>, reply: &Reply) -> Result<(), RefusedGrowth>
    ensures { OnOk result (out.new.items ≡ out.old.items ++ reply_text reply.now) }
{
    match reply {
        Reply::Done => extend(out, b"ok"),
        Reply::Found(None) => extend(out, b"none"),
        Reply::Found(Some(row)) => put_found(out, row),
        Reply::Committed => extend(out, b"committed"),
        Reply::RolledBack => extend(out, b"rolled back"),
        Reply::Rows(found) => {
            label(out, b"rows", found.len() as u64)?;
            rows(out, found.as_slice())
        }
        Reply::Keys(found) => {
            label(out, b"keys", found.len() as u64)?;
            keys(out, found.as_slice())
        }
        Reply::End => extend(out, b"end"),
        Reply::Worked(done) => piece(out, *done),
        Reply::Ended(first) => label(out, b"ended", u64::from(*first)),
        Reply::Refused(r) => {
            extend(out, b"error ")?;
            refusal(out, *r)
        }
    }
}

/// Adds the line of a reply.
pub fn tell_reply(out: &mut Vec<u8>, reply: &Reply) -> Result<(), RefusedGrowth>
    ensures { OnOk result (out.new.items ≡ out.old.items ++ with_feed (reply_text reply.now)) }
{
    text(out, reply)?;
    push(out, b'\n')
}
