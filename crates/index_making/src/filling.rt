//! An index that is filled with entries in any order.

ghost use Rattle.std.specs.Prelude.{◌≡◌, [], false, IfOk, OnOk, OnErr};
ghost use Rattle.index_entries.specs.Sets.{AddsEntry};
ghost use Rattle.entry_columns.specs.Fits.{Fits};
ghost use Rattle.index_making.specs.Filling.{AllFitColumn, Joins, HasBoth, HaveSame, HoldsEntry};

use root_index::{Entry, RootIndex};
use std::alloc::{AllocError, Global};
use std::marker::Model;

// How many entries are collected before they are inserted: 2 MiB of them.
const BATCH: usize = 65_536;

/// The entries of an index that is filled. The last of them are in no order yet. They are inserted in the index's order, a batch at a
/// time, since two entries that follow each other go to one leaf, which then is at hand.
#[derive(Drop)]
pub(crate) struct Filling {
    index: RootIndex,
    batch: Vec<Entry>,
}

impl Model for Filling {
    ghost use Rattle.std.specs.Prelude.{List, ◌++◌, ◌≡◌, false};
    ghost use Rattle.index_entries.specs.declared.entry.Entry.{Entry};
    ghost use Rattle.index_making.specs.Filling.{AllFitColumn};

    ghost Value = { List Entry };

    ghost view = { λ f. f.batch.items ++ f.index.entries };

    ghost invariant = { λ f. AllFitColumn f.batch.items × (f.index.is_by_key ≡ false) };
}

impl Filling {
    /// Without entries. It takes no memory.
    pub(crate) fn new(alloc: Global) -> Self
        ensures { result ≡ [] }
    {
        Filling {
            index: RootIndex::narrow(alloc),
            batch: Vec::new(alloc),
        }
    }

    /// Adds an entry.
    pub(crate) fn add(&mut self, entry: Entry) -> Result<(), AllocError>
        requires { Fits false false entry }
        ensures { OnOk result (Joins self.old self.new entry) }
    {
        self.insert_full_batch()?;
        self.batch.push(entry)?;
        Ok(())
    }

    /// Inserts the batch where it is full.
    fn insert_full_batch(&mut self) -> Result<(), AllocError>
        ensures { OnOk result (HaveSame self.old self.new) }
    {
        if self.batch.len() < BATCH {
            return Ok(());
        }
        insert_batch(&mut self.index, &mut self.batch)?;
        Ok(())
    }

    /// The index of all these entries.
    pub(crate) fn finish(mut self) -> Result<RootIndex, AllocError>
        ensures same { IfOk result (λ index. HaveSame self index.entries) }
        ensures kind { IfOk result (λ index. index.is_by_key ≡ false) }
        ensures refused { OnErr result (HoldsEntry self) }
    {
        insert_batch(&mut self.index, &mut self.batch)?;
        Ok(self.index)
    }
}

/// Inserts a batch in the index's order, and leaves it without entries.
fn insert_batch(index: &mut RootIndex, batch: &mut Vec<Entry>) -> Result<(), AllocError>
    requires kind { index.old.is_by_key ≡ false }
    requires fits { AllFitColumn batch.old.items }
    ensures inserts { OnOk result (HasBoth batch.old.items index.old.entries index.new.entries) }
    ensures kind { index.new.is_by_key ≡ false }
    ensures fits { AllFitColumn batch.new.items }
    ensures none { OnOk result (batch.new.items ≡ []) }
    ensures refused { OnErr result (HoldsEntry batch.old.items) }
{
    batch.sort_unstable_by_key(|entry| (entry.value, entry.key));
    insert_each(index, batch)?;
    batch.clear();
    Ok(())
}

/// Inserts one after the other.
fn insert_each(index: &mut RootIndex, batch: &[Entry]) -> Result<(), AllocError>
    requires kind { index.old.is_by_key ≡ false }
    requires fits { AllFitColumn batch.now }
    ensures inserts { OnOk result (HasBoth batch.now index.old.entries index.new.entries) }
    ensures kind { index.new.is_by_key ≡ false }
    ensures refused { OnErr result (HoldsEntry batch.now) }
{
    for i in 0..batch.len() {
        insert_one(index, batch[i])?;
    }
    Ok(())
}

/// Inserts an entry. A narrow index that can't have it is widened.
fn insert_one(index: &mut RootIndex, entry: Entry) -> Result<(), AllocError>
    requires kind { index.old.is_by_key ≡ false }
    requires fits { Fits false false entry }
    ensures adds { OnOk result (AddsEntry index.old.entries index.new.entries entry) }
    ensures kind { index.new.is_by_key ≡ false }
{
    index.widen_for(entry.value, entry.key)?;
    index.insert(entry)
}
