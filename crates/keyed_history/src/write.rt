//! Writes, as lists. The lists are private to their types, so what asks or changes one alone is a call here.

ghost use Rattle.std.specs.Prelude.{◌≡◌, ◌++◌, ◌∷◌, [], ◌↔◌, IsTrue, IsSome, IfSome, MatchOption, IfOk, OnOk, OnErr, Some, None};
ghost use Rattle.history.specs.History.{said, written};
ghost use Rattle.keyed_history.specs.Places.{IsRowOf};

use crate::kept::KeptRow;
use std::alloc::{AllocError, Global};
use std::marker::Model;
use tuple_header::Row;

/// A key with a row, or with none, and the start of the statement that wrote it.
#[derive(Drop)]
pub struct PlainWrite {
    start: usize,
    key: u64,
    row: Option<KeptRow>,
}

impl Model for PlainWrite {
    ghost use Rattle.history.specs.History.{Write};
    ghost use Rattle.keyed_history.specs.Places.{IsRowOf};

    ghost Value = { Write };

    ghost view = { λ w. record { start = w.start; key = w.key; row = w.row } };

    ghost invariant = { λ w. IsRowOf w.key w.row };
}

/// Writes, the oldest first: those of a level of an open session, or all those of a committed transaction.
#[derive(Drop)]
pub struct PlainLevel {
    writes: Vec<PlainWrite>,
}

impl Model for PlainLevel {
    ghost use Rattle.std.specs.Prelude.{List};
    ghost use Rattle.history.specs.History.{Write};

    ghost Value = { List Write };

    ghost view = { λ l. l.writes.items };
}

fn row_of(row: &Option<KeptRow>) -> Option<Row>
    ensures { result ≡ row.now }
{
    match row {
        Some(row) => Some(row.row()),
        None => None,
    }
}

fn copy_of(alloc: Global, row: &Option<KeptRow>) -> Result<Option<KeptRow>, AllocError>
    ensures { IfOk result (λ kept. kept ≡ row.now) }
{
    match row {
        Some(row) => {
            let kept = row.copy(alloc)?;
            Ok(Some(kept))
        }
        None => Ok(None),
    }
}

impl PlainWrite {
    /// A write of the key, whose row it is if there is one.
    pub fn new(start: usize, key: u64, row: Option<KeptRow>) -> PlainWrite
        requires { IsRowOf key row }
        ensures { result ≡ record { start = start; key = key; row = row } }
    {
        PlainWrite { start, key, row }
    }

    /// The key.
    pub fn key(&self) -> u64
        ensures { result ≡ self.now.key }
    {
        self.key
    }

    /// The row, if it is no deletion.
    pub(crate) fn row(&self) -> Option<Row>
        ensures value { result ≡ self.now.row }
        ensures keyed { IsRowOf self.now.key result }
    {
        row_of(&self.row)
    }

    /// The row where it is kept, if it is no deletion.
    pub fn kept_row(&self) -> Option<&KeptRow>
        ensures { MatchOption result (self.now.row ≡ None) (λ row. self.now.row ≡ Some row.now) }
    {
        match &self.row {
            Some(row) => Some(row),
            None => None,
        }
    }

    /// The same write once more.
    pub(crate) fn copy(&self, alloc: Global) -> Result<PlainWrite, AllocError>
        ensures { IfOk result (λ write. write ≡ self.now) }
    {
        let row = copy_of(alloc, &self.row)?;
        Ok(PlainWrite {
            start: self.start,
            key: self.key,
            row,
        })
    }

    /// What the write says of the key, if it is of that key.
    fn said(&self, key: u64) -> Option<Option<Row>>
        ensures value { result ≡ said self.now key }
        ensures keyed { IfSome result (λ row. IsRowOf key row) }
    {
        if self.key == key {
            Some(row_of(&self.row))
        } else {
            None
        }
    }
}

impl PlainLevel {
    /// No writes.
    pub fn new(alloc: Global) -> PlainLevel
        ensures { result ≡ [] }
    {
        PlainLevel {
            writes: Vec::new(alloc),
        }
    }

    /// The writes.
    pub fn writes(&self) -> &[PlainWrite]
        ensures { result.now ≡ self.now }
    {
        &self.writes
    }

    /// Puts the write behind the others.
    pub fn push(&mut self, write: PlainWrite) -> Result<(), AllocError>
        ensures ok { OnOk result (self.new ≡ self.old ++ write ∷ []) }
        ensures err { OnErr result (self.new ≡ self.old) }
    {
        self.writes.push(write)?;
        Ok(())
    }

    /// Puts the later writes behind these.
    pub fn append(&mut self, later: &mut PlainLevel) -> Result<(), AllocError>
        ensures ok { OnOk result (self.new ≡ self.old ++ later.old) }
        ensures err { OnErr result ((self.new ≡ self.old) × (later.new ≡ later.old)) }
    {
        self.writes.append(&mut later.writes)
    }

    /// Puts a copy of later writes behind these. Where memory is refused some may be there.
    pub fn extend(&mut self, alloc: Global, later: &PlainLevel) -> Result<(), AllocError>
        ensures { OnOk result (self.new ≡ self.old ++ later.now) }
    {
        extend_with(alloc, &mut self.writes, &later.writes)
    }

    /// Drops all writes.
    pub fn clear(&mut self)
        ensures { self.new ≡ [] }
    {
        self.writes.clear();
    }

    /// What the last write to the key says.
    pub fn last_write(&self, key: u64) -> Option<Option<Row>>
        ensures value { result ≡ written self.now key }
        ensures keyed { IfSome result (λ row. IsRowOf key row) }
    {
        last_written(&self.writes, key)
    }

    /// Whether there is a write to the key.
    pub fn wrote(&self, key: u64) -> bool
        ensures { IsTrue result ↔ IsSome (written self.now key) }
    {
        self.last_write(key).is_some()
    }
}

fn extend_with(
    alloc: Global,
    writes: &mut Vec<PlainWrite>,
    later: &[PlainWrite],
) -> Result<(), AllocError>
    ensures { OnOk result (writes.new.items ≡ writes.old.items ++ later.now) }
{
    writes.reserve_exact(later.len())?;
    for write in later {
        let copy = write.copy(alloc)?;
        writes.push(copy)?;
    }
    Ok(())
}

fn last_written(writes: &[PlainWrite], key: u64) -> Option<Option<Row>>
    ensures value { result ≡ written writes.now key }
    ensures keyed { IfSome result (λ row. IsRowOf key row) }
{
    let mut last = None;
    for write in writes {
        if let Some(said) = write.said(key) {
            last = Some(said);
        }
    }
    last
}
