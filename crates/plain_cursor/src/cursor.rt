//! A cursor over rows in the order of an index: what it has not handed out yet.

ghost use Rattle.std.specs.Prelude.{◌≡◌, IfOk, ◌==◌};
ghost use Rattle.std.specs.List.{list_any};
ghost use Rattle.history.specs.Cursors.{keys_of, without};
ghost use Rattle.plain_cursor.specs.Order.{index_of, IsInOrder, rows_without};
ghost use Rattle.plain_cursor.specs.Hands.{cursor_of};

use crate::order::PlainOrder;
use std::alloc::{AllocError, Global};
use std::marker::Model;
use tuple_header::Row;

/// The rows that a cursor hasn't handed out yet, in the order in which it will.
#[derive(Drop)]
pub struct PlainCursor {
    order: PlainOrder,
    rest: Vec<Row>,
}

impl Model for PlainCursor {
    ghost use Rattle.plain_cursor.specs.Order.{KeptCursor, index_of, IsInOrder};

    ghost Value = { KeptCursor };

    ghost view = { λ c. record { order = c.order; rest = c.rest.items } };

    ghost invariant = { λ c. IsInOrder (index_of c.order) c.rest.items };
}

impl PlainCursor {
    /// A cursor over rows that are in its order.
    pub fn new(order: PlainOrder, rest: Vec<Row>) -> PlainCursor
        requires { IsInOrder (index_of order) rest.items }
        ensures { result ≡ record { order = order; rest = rest.items } }
    {
        PlainCursor { order, rest }
    }

    /// In which way it goes over its rows.
    pub fn order(&self) -> PlainOrder
        ensures { result ≡ self.now.order }
    {
        self.order
    }

    /// What it hasn't handed out yet, in the order in which it will.
    pub fn rest(&self) -> &[Row]
        ensures rows { result.now ≡ self.now.rest }
        ensures order { IsInOrder (index_of self.now.order) result.now }
    {
        &self.rest
    }

    /// Passes over the rows of these keys. (They are private to the cursor.)
    pub fn pass_keys(&mut self, keys: &[u64])
        ensures { cursor_of self.new
            ≡ record (cursor_of self.old) { rest = without keys.now (cursor_of self.old).rest } }
    {
        leave_out(&mut self.rest, keys);
    }
}

// Whether it is one of the keys.
fn is_among(keys: &[u64], key: u64) -> bool
    ensures { result ≡ list_any (λ taken. taken == key) keys.now }
{
    for taken in keys {
        if *taken == key {
            return true;
        }
    }
    false
}

// The rows of these keys go.
fn leave_out(rows: &mut Vec<Row>, keys: &[u64])
    ensures { rows.new.items ≡ rows_without keys.now rows.old.items }
{
    rows.retain(|row| !is_among(keys, row.key));
}

/// The keys of the rows.
pub fn all_keys(alloc: Global, rows: &[Row]) -> Result<Vec<u64>, AllocError>
    ensures { IfOk result (λ keys. keys.items ≡ keys_of rows.now) }
{
    rows.iter().map(|row| row.key).collect(alloc)
}
