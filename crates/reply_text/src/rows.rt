//! Lists of rows and of keys.

ghost use Rattle.std.specs.Prelude.{◌≡◌, ◌++◌, ◌∷◌, [], IfOk, OnOk};
ghost use Rattle.std.specs.Option.{option_map};
ghost use Rattle.reply_text.specs.Reading.{counted_of, each_of, feed_split, key_line_of, row_line_of};

use crate::words::{OutOfMemory, behind, cut_at, number, table_row};
use calls::Row;
use std::alloc::Global;

// The line of a row.
fn row_line(alloc: Global, line: &[u8]) -> Result<Option<Row>, OutOfMemory>
    ensures { IfOk result (λ o. o ≡ row_line_of line.now) }
{
    let Some(rest) = behind(line, b"row".as_slice()) else {
        return Ok(None);
    };
    table_row(alloc, rest)
}

// The line of a key.
fn key_line(alloc: Global, line: &[u8]) -> Result<Option<u64>, OutOfMemory>
    ensures { IfOk result (λ o. o ≡ key_line_of line.now) }
{
    let Some(rest) = behind(line, b"key".as_slice()) else {
        return Ok(None);
    };
    number(alloc, rest, u64::MAX)
}

fn push_row(rows: &mut Vec<Row>, row: Row) -> Result<(), OutOfMemory>
    ensures { OnOk result (rows.new.items ≡ rows.old.items ++ row ∷ []) }
{
    match rows.push(row) {
        Ok(()) => Ok(()),
        Err(_) => Err(OutOfMemory),
    }
}

fn push_key(keys: &mut Vec<u64>, key: u64) -> Result<(), OutOfMemory>
    ensures { OnOk result (keys.new.items ≡ keys.old.items ++ key ∷ []) }
{
    match keys.push(key) {
        Ok(()) => Ok(()),
        Err(_) => Err(OutOfMemory),
    }
}

// The rows of lines, one each.
fn rows_of_lines(alloc: Global, lines: &[u8]) -> Result<Option<Vec<Row>>, OutOfMemory>
    ensures { IfOk result
        (λ o. option_map (λ v. v.items) o ≡ each_of row_line_of (feed_split lines.now)) }
{
    let mut rows = Vec::new(alloc);
    for line in lines.split(|b| *b == b'\n') {
        let Some(row) = row_line(alloc, line)? else {
            return Ok(None);
        };
        push_row(&mut rows, row)?;
    }
    Ok(Some(rows))
}

// The keys of lines, one each.
fn keys_of_lines(alloc: Global, lines: &[u8]) -> Result<Option<Vec<u64>>, OutOfMemory>
    ensures { IfOk result
        (λ o. option_map (λ v. v.items) o ≡ each_of key_line_of (feed_split lines.now)) }
{
    let mut keys = Vec::new(alloc);
    for line in lines.split(|b| *b == b'\n') {
        let Some(key) = key_line(alloc, line)? else {
            return Ok(None);
        };
        push_key(&mut keys, key)?;
    }
    Ok(Some(keys))
}

// A number, and so many rows behind it.
pub(crate) fn rows(alloc: Global, words: &[u8]) -> Result<Option<Vec<Row>>, OutOfMemory>
    ensures { IfOk result (λ o. option_map (λ v. v.items) o ≡ counted_of row_line_of words.now) }
{
    let Some((head, lines)) = cut_at(words, b'\n') else {
        return Ok(match number(alloc, words, u64::MAX)? {
            Some(0) => Some(Vec::new(alloc)),
            _ => None,
        });
    };
    let Some(n) = number(alloc, head, u64::MAX)? else {
        return Ok(None);
    };
    let Some(rows) = rows_of_lines(alloc, lines)? else {
        return Ok(None);
    };
    if n == rows.len() as u64 {
        Ok(Some(rows))
    } else {
        Ok(None)
    }
}

// A number, and so many keys behind it.
pub(crate) fn keys(alloc: Global, words: &[u8]) -> Result<Option<Vec<u64>>, OutOfMemory>
    ensures { IfOk result (λ o. option_map (λ v. v.items) o ≡ counted_of key_line_of words.now) }
{
    let Some((head, lines)) = cut_at(words, b'\n') else {
        return Ok(match number(alloc, words, u64::MAX)? {
            Some(0) => Some(Vec::new(alloc)),
            _ => None,
        });
    };
    let Some(n) = number(alloc, head, u64::MAX)? else {
        return Ok(None);
    };
    let Some(keys) = keys_of_lines(alloc, lines)? else {
        return Ok(None);
    };
    if n == keys.len() as u64 {
        Ok(Some(keys))
    } else {
        Ok(None)
    }
}
