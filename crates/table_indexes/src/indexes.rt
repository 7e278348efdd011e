//! The indexes of a table: one by key, and one by each column for which it has one.

ghost use Rattle.std.specs.Prelude.{◌≡◌, pos, false, ℕ, suc, ◌↔◌, ◌<◌, [], Some, None, IsFalse, IsTrue, OnOk, OnErr, if◌then◌else◌, option_copied, FitsSigned, ◌≢◌, ◌^◌, length, MatchOption, IsSome};
ghost use Rattle.std.specs.Int.{w64, w128};
ghost use Rattle.std.specs.Option.{option_map, unwrap_or};
ghost use Rattle.root_index.specs.Pieces.{RemovesPiece};
ghost use Rattle.index_entries.specs.Sets.{AddsEntry};
ghost use Rattle.root_index.specs.View.{room_in};
ghost use Rattle.entry_columns.specs.Fits.{Fits};
ghost use Rattle.entry_columns.specs.declared.short_tid.TheConstants.{PAGES};
ghost use Rattle.tuple_header.specs.IndexValue.{value_in};
ghost use Rattle.xid_circle.specs.declared.Xid.{Xid as Id};
ghost use Rattle.table_indexes.specs.Indexes.{IsInUse, HasIndexes, IsNextIndex, all_entries, index_at, since_at, since_after, entries_of, entries_at, entries_in, new_entries, without_body, SameValues, SameEntries, AddsAny, Enters, IsByColumn, HasEntry, HasEntries, LacksEntry, NeedsEntry};
ghost use Rattle.tuple_header.specs.declared.version.TheConstants.{COLUMNS};

use dead_places::DeadSet;
use root_index::{Entry, PositionHint, Progress, RootIndex};
use std::alloc::{AllocError, Global};
use std::marker::Model;
use tuple_header::{COLUMNS, Row, RowRef};
use xid_circle::{Tid, Xid, precedes};

/// The index by key, and that by each column for which there is one.
#[derive(Debug, Drop)]
pub struct Indexes {
    by_key: RootIndex,
    by_column: [Option<RootIndex>; COLUMNS],
    /// From which id on the index by each column is exact, if it was not always.
    since: [Option<Xid>; COLUMNS],
}

impl Model for Indexes {
    ghost use Rattle.std.specs.Prelude.{Some, ◌∷◌};
    ghost use Rattle.table_indexes.specs.Indexes.{IndexesView, AreOfTheirKinds};

    ghost Value = { IndexesView };

    ghost view = { λ x. record { indexes = Some x.by_key ∷ x.by_column; since = x.since } };

    ghost invariant = { λ x. AreOfTheirKinds x.by_key x.by_column };
}

impl Indexes {
    /// Indexes without entries: one by key, and one by each column where `indexed` is true.
    pub fn new(alloc: Global, indexed: [bool; COLUMNS]) -> Self
        ensures entries { (n : ℕ) → entries_at result n ≡ new_entries indexed n }
        ensures since { (n : ℕ) → since_at result n ≡ None }
    {
        Indexes {
            by_key: RootIndex::by_key(alloc),
            by_column: [
                index_if(alloc, indexed[0]),
                index_if(alloc, indexed[1]),
                index_if(alloc, indexed[2]),
                index_if(alloc, indexed[3]),
            ],
            since: [None; COLUMNS],
        }
    }

    /// The index by key.
    pub fn by_key(&self) -> &RootIndex
        ensures index { index_at self.now 0 ≡ Some result.now }
        ensures entries { result.now.entries ≡ entries_in self.now 0 }
    {
        &self.by_key
    }

    /// The index of this number, if it is in use: 0 is that by key, and c + 1 that by column c.
    pub fn get(&self, number: u8) -> Option<&RootIndex>
        ensures { option_copied result ≡ index_at self.now number }
    {
        if number == 0 {
            return Some(&self.by_key);
        }
        match self.by_column.get(number as usize - 1) {
            Some(index) => index.as_ref(),
            None => None,
        }
    }

    /// Index 0 is in use, and at most five are. It does nothing; its contract is the fact.
    pub fn fact_few(&self)
        ensures { HasIndexes self.now }
    {
        let _columns = &self.by_column;
    }

    /// The first index in use after that of this number, if there is one.
    pub fn next_after(&self, number: u8) -> Option<u8>
        ensures { MatchOption result ((n : ℕ) → number < n → ¬ IsInUse self.now n)
            (λ next. IsNextIndex self.now number next) }
    {
        self.fact_few();
        for next in number.saturating_add(1)..5 {
            if self.get(next).is_some() {
                return Some(next);
            }
        }
        None
    }

    /// How many entries all indexes have.
    pub fn entries(&self) -> u128
        ensures { result ≡ all_entries self.now }
    {
        let columns = &self.by_column;
        let by_column = count(&columns[0])
            + count(&columns[1])
            + count(&columns[2])
            + count(&columns[3]);
        u128::from(self.by_key.len()) + by_column
    }

    /// Goes through a piece of the index of this number, which is in use: of its entries after `from`, or of all, those go that
    /// lead to a dead place. It answers where the piece ended, and takes where the one before did, as
    /// [`RootIndex::remove_where`] does. It takes no memory.
    pub fn sweep(
        &mut self,
        number: u8,
        dead: &DeadSet,
        from: Option<Entry>,
        near: PositionHint,
    ) -> (Progress, PositionHint)
        requires { IsInUse self.old number }
        ensures removes { RemovesPiece (entries_in self.old number) (entries_in self.new number)
            dead.now from result.0 }
        ensures others { (n : ℕ) → n ≢ number → entries_at self.new n ≡ entries_at self.old n }
        ensures in_use { (n : ℕ) → IsInUse self.old n ↔ IsInUse self.new n }
        ensures since { (n : ℕ) → since_at self.new n ≡ since_at self.old n }
    {
        if number == 0 {
            self.by_key.remove_where(dead, from, near)
        } else {
            sweep_column(&mut self.by_column[number as usize - 1], dead, from, near)
        }
    }

    /// Puts this index in place by the column, from 0 to 3, exact from this id on. One that was there goes. It takes no memory.
    pub fn put(&mut self, column: u8, index: RootIndex, since: Xid)
        requires column { column < COLUMNS }
        requires kind { index.is_by_key ≡ false }
        ensures entries { entries_at self.new (suc column) ≡ Some index.entries }
        ensures since { since_at self.new (suc column) ≡ Some since.0 }
        ensures others { (n : ℕ) → n ≢ suc column → entries_at self.new n ≡ entries_at self.old n }
        ensures others_since { (n : ℕ) → n ≢ suc column
            → since_at self.new n ≡ since_at self.old n }
    {
        self.by_column[column as usize] = Some(index);
        self.since[column as usize] = Some(since);
    }

    /// Forgets the ids before this one: an index that was exact from an earlier id on is exact from this one on.
    pub fn forget(&mut self, x: Xid)
        ensures entries { (n : ℕ) → entries_at self.new n ≡ entries_at self.old n }
        ensures since { (n : ℕ) → since_at self.new n ≡ since_after x.0 (since_at self.old n) }
    {
        for c in 0..COLUMNS {
            self.since[c] = since_after(x, self.since[c]);
        }
    }

    /// True where two rows have the same value in each index in use.
    pub fn same_values(&self, old: &RowRef<'_>, new: &Row) -> bool
        ensures { IsTrue result ↔ SameValues self.now old.now new.now }
    {
        let cols = old.cols();
        for c in 0..COLUMNS {
            if self.by_column[c].is_some() && cols[c] != new.cols[c] {
                return false;
            }
        }
        old.key() == new.key
    }

    /// Makes room in memory for an entry of this row in each index in use. A narrow one that can't have it is widened.
    pub fn make_room(&mut self, row: &Row) -> Result<(), AllocError>
        ensures room { OnOk result (HasEntries self.new row.now) }
        ensures refused { OnErr result (NeedsEntry self.old row.now) }
        ensures same { SameEntries self.old self.new }
    {
        self.by_key.make_room(1)?;
        for c in 0..COLUMNS {
            reserve_entry(&mut self.by_column[c], row.cols[c], row.key)?;
        }
        Ok(())
    }

    /// Makes that room for an update, which makes no entry if it is heap-only.
    pub fn make_room_for(&mut self, heap_only: bool, row: &Row) -> Result<(), AllocError>
        ensures room { OnOk result (IsFalse heap_only → HasEntries self.new row.now) }
        ensures refused { OnErr result (IsFalse heap_only × NeedsEntry self.old row.now) }
        ensures same { SameEntries self.old self.new }
    {
        if heap_only {
            return Ok(());
        }
        self.make_room(row)
    }

    /// Says that the next entry by key goes right before or right behind this position, as [`RootIndex::expect`] does. (The
    /// index by key is private to this type.)
    pub fn expect(&mut self, near: PositionHint)
        ensures { self.new ≡ self.old }
    {
        self.by_key.expect(near);
    }

    /// Adds an entry to each index in use, for a version at a place of a row with this key and these columns. The place is on one
    /// of the first 65,536 pages. It takes no memory.
    pub fn enter(&mut self, key: u64, cols: &[i64; COLUMNS], place: Tid)
        requires room { HasEntries self.old (without_body key cols.now) }
        requires page { place.page < PAGES }
        ensures { Enters self.old self.new (without_body key cols.now) place }
    {
        add_entry(&mut self.by_key, value_in(0, key, cols), key, place);
        for c in 0..COLUMNS {
            let value = value_in(c + 1, key, cols);
            enter_in(&mut self.by_column[c], value, key, place);
        }
    }
}

/// From which id on an index is exact when the ids before `x` are forgotten.
fn since_after(x: Xid, since: Option<Xid>) -> Option<Xid>
    ensures { option_map (λ (id : Id). id.0) result
        ≡ since_after x.0 (option_map (λ (id : Id). id.0) since) }
{
    match since {
        Some(id) if precedes(id, x) => Some(x),
        _ => since,
    }
}

/// How many entries an index has, if it is in use.
fn count(index: &Option<RootIndex>) -> u128
    ensures value { result ≡ length (unwrap_or (entries_of index.now) []) }
    ensures limit { result < 2 ^ 64 }
{
    match index {
        Some(index) => u128::from(index.len()),
        None => 0,
    }
}

/// Goes through a piece of the index by a column, which is in use.
fn sweep_column(
    index: &mut Option<RootIndex>,
    dead: &DeadSet,
    from: Option<Entry>,
    near: PositionHint,
) -> (Progress, PositionHint)
    requires { IsSome (entries_of index.old) }
    ensures removes { RemovesPiece (unwrap_or (entries_of index.old) [])
        (unwrap_or (entries_of index.new) []) dead.now from result.0 }
    ensures in_use { IsSome (entries_of index.new) }
    ensures kind { IsByColumn index.old → IsByColumn index.new }
{
    match index {
        Some(index) => index.remove_where(dead, from, near),
        None => unreachable!(),
    }
}

/// The value in the index of this number of a row with this key and these columns.
fn value_in(number: usize, key: u64, cols: &[i64; COLUMNS]) -> i128
    ensures value { result ≡ value_in number (without_body key cols.now) }
    ensures fits { FitsSigned w128 result }
    ensures key { number ≡ 0 → result ≡ pos key }
    ensures column { 0 < number → FitsSigned w64 result }
{
    if number == 0 {
        return key as i128;
    }
    match cols.get(number - 1) {
        Some(value) => *value as i128,
        None => 0,
    }
}

/// An index without entries, if one is asked for.
fn index_if(alloc: Global, wanted: bool) -> Option<RootIndex>
    ensures entries { entries_of result ≡ (if wanted then Some [] else None) }
    ensures kind { IsByColumn result }
{
    if wanted {
        Some(RootIndex::narrow(alloc))
    } else {
        None
    }
}

/// Makes room in memory for an entry of this value and this key in an index by a column, if it is in use.
fn reserve_entry(index: &mut Option<RootIndex>, value: i64, key: u64) -> Result<(), AllocError>
    requires { IsByColumn index.old }
    ensures room { OnOk result (HasEntry index.new value key) }
    ensures refused { OnErr result (LacksEntry index.old value key) }
    ensures same { entries_of index.new ≡ entries_of index.old }
    ensures kind { IsByColumn index.new }
{
    match index {
        Some(index) => {
            index.widen_for(i128::from(value), key)?;
            index.make_room(1)
        }
        None => Ok(()),
    }
}

/// Adds an entry to an index, if it is in use. There is memory for it.
fn enter_in(index: &mut Option<RootIndex>, value: i128, key: u64, tid: Tid)
    requires room { HasEntry index.old value key }
    requires page { tid.page < PAGES }
    ensures adds { AddsAny (entries_of index.old) (entries_of index.new)
        (record { value = value; key = key; tid = tid }) }
    ensures kind { IsByColumn index.old → IsByColumn index.new }
{
    if let Some(index) = index {
        add_entry(index, value, key, tid);
    }
}

/// Adds an entry to an index, which has memory for it.
fn add_entry(index: &mut RootIndex, value: i128, key: u64, tid: Tid)
    requires room { 0 < room_in index.old }
    requires fits { Fits index.old.is_by_key index.old.is_narrow
        (record { value = value; key = key; tid = tid }) }
    ensures adds { AddsEntry index.old.entries index.new.entries
        (record { value = value; key = key; tid = tid }) }
    ensures kind { index.new.is_by_key ≡ index.old.is_by_key }
{
    match index.insert(Entry { value, key, tid }) {
        Ok(()) => {}
        Err(_) => unreachable!(),
    }
}
