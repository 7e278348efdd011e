//! A narrow index: one by a column, of values and keys of 32 bits.

ghost use Rattle.std.specs.Prelude.{◌≡◌, ◌<◌, ◌≤◌, ◌+◌, ◌^◌, [], true, false, length, IfOk, OnOk, OnErr, Some, Contains};
ghost use Rattle.index_entries.specs.declared.entry.Entry.{Entry as Seen};
ghost use Rattle.index_entries.specs.declared.node.TheConstants.{MOST_PARTS};
ghost use Rattle.index_entries.specs.Sets.{AddsEntry, IsLeast, IsAfter};
ghost use Rattle.entry_columns.specs.Fits.{Fits};
ghost use Rattle.root_index.specs.Widening.{IsForAll};
ghost use Rattle.root_index.specs.View.{free_places, room_in};
ghost use Rattle.root_index.specs.Pieces.{RemovesPiece};

use crate::index::{Index, PositionHint};
use crate::progress::Progress;
use dead_places::DeadSet;
use entry_columns::{ColumnLabel, NarrowLabel};
use index_entries::{Entry, MOST_PARTS};
use std::alloc::{AllocError, Global};
use std::marker::Model;
use std::mem;

/// An ordered set of entries whose values and keys have 32 bits, by a column.
#[derive(Debug, Drop)]
pub(crate) struct NarrowIndex {
    entries: Index<NarrowLabel>,
    /// Where the entries move when one comes that is not so. It has none until then. Nodes are set aside in it as soon as they are in the
    /// other: so fewer than 128 entries move without memory.
    wide: Index<ColumnLabel>,
}

impl Model for NarrowIndex {
    ghost use Rattle.root_index.specs.View.{IndexView};
    ghost use Rattle.root_index.specs.Widening.{IsReadyToWiden};

    ghost Value = { IndexView };

    ghost view = { λ x. x.entries };

    ghost invariant = { λ x. IsReadyToWiden x.entries x.wide };
}

impl NarrowIndex {
    /// An index without entries.
    pub(crate) fn new(alloc: Global) -> Self
        ensures none { result.entries ≡ [] }
        ensures kind { result.is_by_key ≡ false }
        ensures narrow { result.is_narrow ≡ true }
    {
        NarrowIndex {
            entries: Index::new(alloc),
            wide: Index::new(alloc),
        }
    }

    /// The entries, for who reads them. (They are private to this type.)
    #[inline(always)]
    pub(crate) fn entries(&self) -> &Index<NarrowLabel>
        ensures { result.now ≡ self.now }
    {
        &self.entries
    }

    /// That it is narrow. It does nothing; its contract is the fact.
    pub(crate) fn fact_kind(&self)
        ensures kind { self.now.is_by_key ≡ false }
        ensures narrow { self.now.is_narrow ≡ true }
    {
        let _wide = &self.wide;
    }

    /// Says where the next entry goes, as [`Index::expect`] does. (The entries are private to this type.)
    pub(crate) fn expect(&mut self, near: PositionHint)
        ensures { self.new ≡ self.old }
    {
        self.entries.expect(near);
    }

    /// Makes room in memory for `count` more entries, as [`Index::make_room`] does, and for all to move.
    pub(crate) fn make_room(&mut self, count: usize) -> Result<(), AllocError>
        ensures room { OnOk result (count ≤ room_in self.new) }
        ensures refused { OnErr result (room_in self.old < count) }
        ensures spare { self.old.spare ≤ self.new.spare }
        ensures entries { self.new.entries ≡ self.old.entries }
        ensures kind { self.new.is_by_key ≡ self.old.is_by_key }
        ensures narrow { self.new.is_narrow ≡ self.old.is_narrow }
        ensures err { OnErr result (self.new ≡ self.old) }
    {
        if count == 0 {
            return Ok(());
        }
        self.wide.make_room(1)?;
        self.entries.make_room(count)
    }

    /// Adds an entry, as [`Index::insert`] does.
    pub(crate) fn insert(&mut self, entry: Entry) -> Result<(), AllocError>
        requires { Fits self.old.is_by_key self.old.is_narrow entry }
        ensures kind { self.new.is_by_key ≡ self.old.is_by_key }
        ensures narrow { self.new.is_narrow ≡ self.old.is_narrow }
        ensures adds { OnOk result (AddsEntry self.old.entries self.new.entries entry) }
        ensures spare { OnOk result (self.old.spare ≤ self.new.spare + 1) }
        ensures room { OnOk result (room_in self.old ≤ room_in self.new + 1) }
        ensures spare_kept { Contains self.old.entries entry → self.old.spare ≤ self.new.spare }
        ensures nodes { self.old.nodes ≤ self.new.nodes }
        ensures unspent { OnOk result
            (self.new.nodes ≡ self.old.nodes → length self.new.entries + self.old.spare < 2 ^ 64
            → self.old.spare ≤ self.new.spare) }
        ensures memory { OnErr result ((room_in self.old ≡ 0) × ¬ Contains self.old.entries entry) }
        ensures err { OnErr result (self.new.entries ≡ self.old.entries) }
    {
        self.wide.make_room(1)?;
        self.entries.insert(entry)
    }

    /// Removes a piece, as [`Index::remove_where`] does.
    pub(crate) fn remove_where(
        &mut self,
        dead: &DeadSet,
        from: Option<Entry>,
        near: PositionHint,
    ) -> (Progress, PositionHint)
        ensures piece { RemovesPiece self.old.entries self.new.entries dead.now from result.0 }
        ensures spare { self.old.spare ≤ self.new.spare }
        ensures room { room_in self.old ≤ room_in self.new }
        ensures kind { self.new.is_by_key ≡ self.old.is_by_key }
        ensures narrow { self.new.is_narrow ≡ self.old.is_narrow }
    {
        if self.entries.len() == 0 {
            return (Progress::Done, near);
        }
        self.entries.remove_where(dead, from, near)
    }

    /// Takes the entries out, to an index that takes any other besides. Where memory is refused, they stay.
    pub(crate) fn take_wide(&mut self) -> Result<Index<ColumnLabel>, AllocError>
        ensures entries { IfOk result (λ wide. wide.entries ≡ self.old.entries) }
        ensures kind { IfOk result (λ wide. wide.is_by_key ≡ self.old.is_by_key) }
        ensures narrow { IfOk result (λ wide. wide.is_narrow ≡ false) }
        ensures room { IfOk result
            (λ wide. free_places (length self.old.entries) self.old.spare ≤ room_in wide) }
        ensures refused { OnErr result (MOST_PARTS ≤ length self.old.entries) }
        ensures err { OnErr result (self.new ≡ self.old) }
    {
        let alloc = self.entries.allocator();
        let mut wide = Index::new(alloc);
        if self.entries.len() < MOST_PARTS as u64 {
            wide = mem::replace(&mut self.wide, wide);
        }
        copy_entries(&self.entries, &mut wide)?;
        self.entries = Index::new(alloc);
        Ok(wide)
    }
}

/// Adds the entries of an index to one that has none, in order.
fn copy_entries(from: &Index<NarrowLabel>, to: &mut Index<ColumnLabel>) -> Result<(), AllocError>
    requires none { to.old.entries ≡ [] }
    requires kind { IsForAll to.old }
    requires fit { (e : Seen) → Contains from.now.entries e → Fits false false e }
    ensures entries { OnOk result (to.new.entries ≡ from.now.entries) }
    ensures kind { IsForAll to.new }
    ensures room { OnOk result (room_in to.old ≤ room_in to.new + length from.now.entries) }
    ensures refused { OnErr result (room_in to.old < length from.now.entries) }
{
    from.fact_ascending();
    let mut next = from.next_after(None);
    let mut near = PositionHint::default();
    for _ in 0..from.len() {
        let Some(entry) = next else {
            return Ok(());
        };
        to.insert(entry)?;
        next = next_of(from, entry, &mut near);
    }
    Ok(())
}

/// The entry after this one, which stands at the position, or near it; and then the position is that of the next.
fn next_of(from: &Index<NarrowLabel>, entry: Entry, near: &mut PositionHint) -> Option<Entry>
    ensures { IsLeast from.now.entries (IsAfter (Some entry)) result }
{
    let (next, position) = from.next_near(entry, *near)?;
    *near = position;
    Some(next)
}
