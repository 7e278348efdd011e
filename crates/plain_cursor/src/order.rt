//! The order of an index, and the rows that stand in it.

ghost use Rattle.std.specs.Prelude.{◌≡◌, ℕ, ◌≤◌, ◌∷◌, ◌++◌, OnOk, IsTrue, ◌↔◌, IsSome, length, take, drop};
ghost use Rattle.tuple_header.specs.IndexValue.{value_in};
ghost use Rattle.tuple_header.specs.declared.version.Row.{Row as SpecRow};
ghost use Rattle.plain_cursor.specs.Order.{index_of, comes_before, is_wanted, placed, row_of_key};

use std::alloc::AllocError;
use tuple_header::Row;

/// In which way a cursor goes over its rows.
#[derive(Clone, Copy, Debug, PartialEq, Eq)]
pub enum PlainOrder {
    /// By the key (0), or by column c (c + 1) and then the key.
    Index(u8),
    /// By the key, over all rows.
    Heap,
    /// By the key, of which alone is handed out.
    Keys,
}

impl PlainOrder {
    /// The index in whose order the rows are kept.
    pub fn index(self) -> u8
        ensures { result ≡ index_of self }
    {
        match self {
            PlainOrder::Index(index) => index,
            PlainOrder::Heap => 0,
            PlainOrder::Keys => 0,
        }
    }
}

/// Which rows a cursor is to hand out.
#[derive(Clone, Copy)]
pub enum Bounds {
    /// All rows.
    All,
    /// Those whose value lies between the two, both included.
    Within(i128, i128),
}

/// The value by which an index orders a row.
fn value_in(index: u8, row: &Row) -> i128
    ensures { result ≡ value_in index row.now }
{
    if index == 0 {
        return row.key as i128;
    }
    match row.cols.get(index as usize - 1) {
        Some(value) => *value as i128,
        None => 0,
    }
}

fn comes_before(index: u8, a: &Row, b: &Row) -> bool
    ensures { result ≡ comes_before index a.now b.now }
{
    let x = value_in(index, a);
    let y = value_in(index, b);
    x < y || (x == y && a.key < b.key)
}

impl Bounds {
    /// Whether they let a row of this value pass.
    pub fn includes(self, value: i128) -> bool
        ensures { (index : ℕ) (row : SpecRow) → value ≡ value_in index row
            → result ≡ is_wanted self index row }
    {
        match self {
            Bounds::All => true,
            Bounds::Within(low, high) => low <= value && value <= high,
        }
    }
}

/// Whether the bounds let the row pass.
pub fn is_wanted(bounds: Bounds, index: u8, row: &Row) -> bool
    ensures { result ≡ is_wanted bounds index row.now }
{
    bounds.includes(value_in(index, row))
}

/// Puts the row to its place among the rows, which are in order.
pub fn place(rows: &mut Vec<Row>, index: u8, row: Row) -> Result<(), AllocError>
    ensures { OnOk result (rows.new.items ≡ placed index row rows.old.items) }
{
    let at = place_of(rows, index, &row);
    rows.insert(at, row)?;
    Ok(())
}

fn place_of(rows: &[Row], index: u8, row: &Row) -> usize
    ensures within { result ≤ length rows.now }
    ensures placed { take result rows.now ++ row.now ∷ drop result rows.now
        ≡ placed index row.now rows.now }
{
    for (i, other) in rows.iter().enumerate() {
        if comes_before(index, row, other) {
            return i;
        }
    }
    rows.len()
}

/// Whether a row of the key is there.
pub fn has_key(rows: &[Row], key: u64) -> bool
    ensures { IsTrue result ↔ IsSome (row_of_key rows.now key) }
{
    for row in rows {
        if row.key == key {
            return true;
        }
    }
    false
}
