//! Rows where they stand.

ghost use Rattle.std.specs.Prelude.{◌≡◌, ◌≤◌, length};
ghost use Rattle.tuple_header.specs.Places.{place_with};

use crate::{COLUMNS, MOST_BODY, Row, RowPlace};
use arrayvec::ArrayVec;
use std::marker::Model;

/// A row where it stands on a page, which keeps its body apart. It is looked at without a copy of the body.
#[derive(Drop)]
pub struct RowRef<'a> {
    key: u64,
    cols: [i64; COLUMNS],
    body: &'a [u8],
}

impl<'a> Model for RowRef<'a> {
    ghost use Rattle.std.specs.Prelude.{◌≤◌, length};
    ghost use Rattle.tuple_header.specs.declared.version.Row.{Row as SpecRow};
    ghost use Rattle.tuple_header.specs.declared.version.TheConstants.{MOST_BODY};

    ghost Value = { SpecRow };

    ghost view = { λ r. record {
      key = r.key;
      cols = r.cols;
      body = record { items = r.body.now };
    } };

    ghost invariant = { λ r. length r.body.now ≤ MOST_BODY };
}

impl<'a> RowRef<'a> {
    /// The row of this key, these columns and this body, which has at most 1024 bytes.
    pub fn new(key: u64, cols: [i64; COLUMNS], body: &'a [u8]) -> RowRef<'a>
        requires { length body.now ≤ MOST_BODY }
        ensures { result ≡ record { key = key; cols = cols; body = record { items = body.now } } }
    {
        RowRef { key, cols, body }
    }

    /// The key.
    pub fn key(&self) -> u64
        ensures { result ≡ self.now.key }
    {
        self.key
    }

    /// The four columns.
    pub fn cols(&self) -> &[i64; COLUMNS]
        ensures { result.now ≡ self.now.cols }
    {
        &self.cols
    }

    /// An equal row. It takes no memory.
    pub fn copy(&self) -> Row
        ensures { result ≡ self.now }
    {
        let mut row = Row {
            key: 0,
            cols: [0; COLUMNS],
            body: ArrayVec::new(),
        };
        self.copy_to(&mut row);
        row
    }

    /// Makes the other row equal to this one, where it stands. It takes no memory.
    pub fn copy_to(&self, row: &mut Row)
        ensures { row.new ≡ self.now }
    {
        row.key = self.key;
        row.cols = self.cols;
        row.body.clear();
        let _ = row.body.try_extend_from_slice(self.body);
    }

    /// Writes the row to a place, where the bytes behind its body stay. It takes no memory.
    pub fn put_into(&self, place: &mut RowPlace)
        ensures { place.new ≡ place_with self.now place.old }
    {
        let count = self.body.len();
        place.key = self.key;
        place.cols = self.cols;
        place.length = count as u16;
        place.body[..count].copy_from_slice(self.body);
    }
}
