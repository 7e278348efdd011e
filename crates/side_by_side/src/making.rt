//! Whether an index that was made is as the history has it.

use plain_history::PlainHistory;
use root_index::{Entry, RootIndex};
use session_core::Row;

fn value_in(number: u8, row: &Row) -> i128 {
    match number {
        1..=4 => i128::from(row.cols[number as usize - 1]),
        _ => i128::from(row.key),
    }
}

// Whether the session reads a row of the entry's key in the plain program, with the entry's value.
fn is_of_read_row(plain: &PlainHistory, s: u8, entry: Entry, number: u8) -> bool {
    match plain.read(s, entry.key) {
        Ok(Some(row)) => value_in(number, &row) == entry.value,
        _ => false,
    }
}

// Entries of one key and one value stand beside each other.
fn has_key(entry: Option<Entry>, key: u64) -> bool {
    match entry {
        Some(entry) => entry.key == key,
        None => false,
    }
}

// How many of the keys the session reads a row of.
fn count_rows(plain: &PlainHistory, s: u8, keys: &[u64]) -> u64 {
    let mut rows: u64 = 0;
    for key in keys {
        if let Ok(Some(_)) = plain.read(s, *key) {
            rows = rows.saturating_add(1);
        }
    }
    rows
}

/// Whether the index of this number has one entry for each row that the session reads in the plain program, with the row's value, and no
/// other. All rows are of these keys.
pub(crate) fn is_exact(
    plain: &PlainHistory,
    s: u8,
    index: &RootIndex,
    number: u8,
    keys: &[u64],
) -> bool {
    if index.len() != count_rows(plain, s, keys) {
        return false;
    }
    let mut from = None;
    for _ in 0..index.len() {
        let Some(entry) = index.next_after(from) else {
            return false;
        };
        if has_key(from, entry.key) || !is_of_read_row(plain, s, entry, number) {
            return false;
        }
        from = Some(entry);
    }
    true
}
