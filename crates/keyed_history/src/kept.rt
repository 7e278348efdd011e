//! Rows as they are kept.

ghost use Rattle.std.specs.Prelude.{◌≡◌, IfOk};
ghost use Rattle.tuple_header.specs.IndexValue.{value_in};

use arrayvec::ArrayVec;
use std::alloc::{AllocError, Global};
use std::marker::Model;
use tuple_header::{COLUMNS, Row};

/// A row with no more memory than its body takes. A `Row` has room for the largest, which is too much where many are kept.
#[derive(Drop)]
pub struct KeptRow {
    key: u64,
    cols: [i64; COLUMNS],
    body: Vec<u8>,
}

impl Model for KeptRow {
    ghost use Rattle.std.specs.Prelude.{◌≤◌, length};
    ghost use Rattle.tuple_header.specs.declared.version.Row.{Row as SpecRow};
    ghost use Rattle.tuple_header.specs.declared.version.TheConstants.{MOST_BODY};

    ghost Value = { SpecRow };

    ghost view = { λ r. record {
      key = r.key;
      cols = r.cols;
      body = record { items = r.body.items };
    } };

    ghost invariant = { λ r. length r.body.items ≤ MOST_BODY };
}

impl KeptRow {
    /// An equal row.
    pub fn keep(alloc: Global, row: &Row) -> Result<KeptRow, AllocError>
        ensures { IfOk result (λ kept. kept ≡ row.now) }
    {
        let body = Vec::from_slice(alloc, row.body.as_slice())?;
        Ok(KeptRow {
            key: row.key,
            cols: row.cols,
            body,
        })
    }

    /// The same, kept once more.
    pub fn copy(&self, alloc: Global) -> Result<KeptRow, AllocError>
        ensures { IfOk result (λ kept. kept ≡ self.now) }
    {
        let body = Vec::from_slice(alloc, &self.body)?;
        Ok(KeptRow {
            key: self.key,
            cols: self.cols,
            body,
        })
    }

    /// The row. It takes no memory.
    pub fn row(&self) -> Row
        ensures { result ≡ self.now }
    {
        let mut body = ArrayVec::new();
        let _ = body.try_extend_from_slice(&self.body);
        Row {
            key: self.key,
            cols: self.cols,
            body,
        }
    }

    /// The value by which an index orders it.
    pub fn value(&self, index: u8) -> i128
        ensures { result ≡ value_in index self.now }
    {
        if index == 0 {
            return self.key as i128;
        }
        match self.cols.get(index as usize - 1) {
            Some(value) => *value as i128,
            None => 0,
        }
    }
}
