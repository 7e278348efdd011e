//! The rows that a session reads, in the order of an index.

ghost use Rattle.std.specs.Prelude.{◌≡◌, ℕ, OnOk, IfOk, IfSome, None, false, length};
ghost use Rattle.history.specs.History.{said, written};
ghost use Rattle.history.specs.World.{joined, view};
ghost use Rattle.plain_cursor.specs.Order.{row_of_key, IsInOrder, is_wanted, wanted};
ghost use Rattle.plain_history.specs.Plain.{open_of};
ghost use Rattle.plain_history.specs.Covers.{has, AddsRow, Covers, IsUnwanted, AreUnwanted};

use crate::plain::PlainSession;
use keyed_history::{KeyedHistory, PlainLevel, PlainWrite};
use plain_cursor::{Bounds, has_key, is_wanted, place};
use std::alloc::{AllocError, Global};
use tuple_header::Row;

/// Adds the session's row of the key, if it is wanted and not there yet.
fn add_row(
    rows: &mut Vec<Row>,
    history: &KeyedHistory,
    session: &PlainSession,
    key: u64,
    index: u8,
    bounds: Bounds,
) -> Result<(), AllocError>
    requires { IsInOrder index rows.old.items }
    ensures order { OnOk result (IsInOrder index rows.new.items) }
    ensures added { OnOk result
        (AddsRow
        (wanted bounds index (view history.now (open_of session.now))) key rows.old.items
        rows.new.items) }
{
    if has_key(rows, key) {
        return Ok(());
    }
    match session.view(history, key) {
        Some(row) => {
            if is_wanted(bounds, index, &row) {
                place(rows, index, row)?;
            }
            Ok(())
        }
        None => Ok(()),
    }
}

/// The session's rows that are wanted, in the order of the index.
pub(crate) fn rows_of(
    alloc: Global,
    history: &KeyedHistory,
    session: &PlainSession,
    index: u8,
    bounds: Bounds,
) -> Result<Vec<Row>, AllocError>
    ensures order { IfOk result (λ rows. IsInOrder index rows.items) }
    ensures rows { IfOk result
        (λ rows. (key : ℕ)
        → row_of_key rows.items key
        ≡ wanted bounds index (view history.now (open_of session.now)) key) }
{
    let keys = keys_of(alloc, history, session, index, bounds)?;
    rows_with(alloc, history, session, &keys, index, bounds)
}

fn rows_with(
    alloc: Global,
    history: &KeyedHistory,
    session: &PlainSession,
    keys: &[u64],
    index: u8,
    bounds: Bounds,
) -> Result<Vec<Row>, AllocError>
    ensures order { IfOk result (λ rows. IsInOrder index rows.items) }
    ensures rows { IfOk result
        (λ rows. Covers
        (wanted bounds index (view history.now (open_of session.now))) rows.items keys.now) }
{
    let mut rows = Vec::new(alloc);
    for key in keys {
        add_row(&mut rows, history, session, *key, index, bounds)?;
    }
    Ok(rows)
}

/// The keys of which the session may read a row that is wanted. Such a row was written, so what was written is looked at, and not what
/// the session reads of each key.
fn keys_of(
    alloc: Global,
    history: &KeyedHistory,
    session: &PlainSession,
    index: u8,
    bounds: Bounds,
) -> Result<Vec<u64>, AllocError>
    ensures { IfOk result
        (λ keys. (key : ℕ) → has keys.items key ≡ false
        → wanted bounds index (view history.now (open_of session.now)) key ≡ None) }
{
    let mut keys = Vec::new(alloc);
    add_history(&mut keys, history.transactions(), index, bounds)?;
    add_levels(&mut keys, &session.older, index, bounds)?;
    add_writes(&mut keys, session.newest.writes(), index, bounds)?;
    Ok(keys)
}

fn add_history(
    keys: &mut Vec<u64>,
    history: &[PlainLevel],
    index: u8,
    bounds: Bounds,
) -> Result<(), AllocError>
    ensures { OnOk result
        ((key : ℕ) → has keys.new.items key ≡ false
        → (has keys.old.items key ≡ false)
        × AreUnwanted (is_wanted bounds index) history.now (length history.now) key) }
{
    for transaction in history {
        add_writes(keys, transaction.writes(), index, bounds)?;
    }
    Ok(())
}

fn add_levels(
    keys: &mut Vec<u64>,
    levels: &[PlainLevel],
    index: u8,
    bounds: Bounds,
) -> Result<(), AllocError>
    ensures { OnOk result
        ((key : ℕ) → has keys.new.items key ≡ false
        → (has keys.old.items key ≡ false)
        × IsUnwanted (is_wanted bounds index) (written (joined levels.now) key)) }
{
    for level in levels {
        add_writes(keys, level.writes(), index, bounds)?;
    }
    Ok(())
}

fn add_writes(
    keys: &mut Vec<u64>,
    writes: &[PlainWrite],
    index: u8,
    bounds: Bounds,
) -> Result<(), AllocError>
    ensures { OnOk result
        ((key : ℕ) → has keys.new.items key ≡ false
        → (has keys.old.items key ≡ false)
        × IsUnwanted (is_wanted bounds index) (written writes.now key)) }
{
    for write in writes {
        add_write(keys, write, index, bounds)?;
    }
    Ok(())
}

// Adds the key of the write, if a row that it wrote is wanted.
fn add_write(
    keys: &mut Vec<u64>,
    write: &PlainWrite,
    index: u8,
    bounds: Bounds,
) -> Result<(), AllocError>
    ensures { OnOk result
        ((key : ℕ) → has keys.new.items key ≡ false
        → (has keys.old.items key ≡ false)
        × IsUnwanted (is_wanted bounds index) (said write.now key)) }
{
    if !may_be_wanted(write, index, bounds) {
        return Ok(());
    }
    keys.push(write.key())?;
    Ok(())
}

fn may_be_wanted(write: &PlainWrite, index: u8, bounds: Bounds) -> bool
    ensures { IfSome write.now.row (λ row. result ≡ is_wanted bounds index row) }
{
    match write.kept_row() {
        Some(row) => bounds.includes(row.value(index)),
        None => false,
    }
}
