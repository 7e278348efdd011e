//! The history by keys.

ghost use Rattle.std.specs.Prelude.{◌≡◌, ◌+◌, ◌↔◌, ◌++◌, ◌∷◌, [], ℕ, IsTrue, MatchOption, OnOk, OnErr, Some, None, length, take};
ghost use Rattle.history.specs.History.{latest, committed, IsLate};
ghost use Rattle.keyed_history.specs.Places.{IsRowOf};

use crate::noting::note_transaction;
use crate::spots::Spots;
use crate::write::{PlainLevel, PlainWrite};
use std::alloc::{AllocError, Global};
use std::marker::Model;
use tuple_header::Row;

/// What has committed: the transactions in their order, and beside them where each of them wrote a key last.
#[derive(Drop)]
pub struct KeyedHistory {
    transactions: Vec<PlainLevel>,
    spots: Spots,
}

impl Model for KeyedHistory {
    ghost use Rattle.std.specs.Prelude.{List};
    ghost use Rattle.history.specs.History.{Transaction};
    ghost use Rattle.keyed_history.specs.Places.{AreSpotsOf};

    ghost Value = { List Transaction };

    ghost view = { λ h. h.transactions.items };

    ghost invariant = { λ h. AreSpotsOf h.spots.places h.transactions.items };
}

impl KeyedHistory {
    /// Nothing has committed.
    pub fn new(alloc: Global) -> KeyedHistory
        ensures { result ≡ [] }
    {
        KeyedHistory {
            transactions: Vec::new(alloc),
            spots: Spots::new(alloc),
        }
    }

    /// How many transactions have committed. (The list is private to this type.)
    pub fn len(&self) -> usize
        ensures { result ≡ length self.now }
    {
        self.transactions.len()
    }

    /// The transactions, in the order in which they committed.
    pub fn transactions(&self) -> &[PlainLevel]
        ensures { result.now ≡ self.now }
    {
        &self.transactions
    }

    // The last write to the key by the first n transactions.
    fn last_write(&self, n: usize, key: u64) -> Option<&PlainWrite>
        ensures { MatchOption result (latest (take n self.now) key ≡ None)
            (λ w. (latest (take n self.now) key ≡ Some w.now.row) × (w.now.key ≡ key)) }
    {
        match self.spots.last_below(key, n) {
            Some((m, place)) => Some(&self.transactions[m].writes()[place]),
            None => None,
        }
    }

    /// The row of the key after the first n transactions.
    pub fn row_after(&self, n: usize, key: u64) -> Option<Row>
        ensures value { result ≡ committed self.now n key }
        ensures keyed { IsRowOf key result }
    {
        match self.last_write(n, key) {
            Some(write) => write.row(),
            None => None,
        }
    }

    /// Did a transaction of this number or a later one write the key?
    pub fn is_late(&self, start: usize, key: u64) -> bool
        ensures { IsTrue result ↔ IsLate self.now start key }
    {
        match self.last_writer(key) {
            Some(n) => start <= n,
            None => false,
        }
    }

    /// The number of the last transaction that wrote the key.
    pub fn last_writer(&self, key: u64) -> Option<usize>
        ensures { MatchOption result (¬ IsLate self.now 0 key)
            (λ n. IsLate self.now n key × (¬ IsLate self.now (n + 1) key)) }
    {
        match self.spots.last_below(key, self.transactions.len()) {
            Some((n, _)) => Some(n),
            None => None,
        }
    }

    /// The transaction joins the history. Where memory is refused all is as it was.
    pub fn push(&mut self, transaction: PlainLevel) -> Result<(), AllocError>
        ensures ok { OnOk result (self.new ≡ self.old ++ transaction ∷ []) }
        ensures err { OnErr result (self.new ≡ self.old) }
    {
        self.transactions.reserve(1)?;
        let n = self.transactions.len();
        note_transaction(&mut self.spots, n, &transaction)?;
        self.transactions.push(transaction)?;
        Ok(())
    }
}
