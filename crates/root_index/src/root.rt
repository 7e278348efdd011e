//! The index, be it by key or by a column.

ghost use Rattle.std.specs.Prelude.{◌≡◌, ◌↔◌, ◌<◌, ◌≤◌, ◌+◌, ◌^◌, [], true, false, length, OnOk, OnErr, Some, IfSome, IsTrue, Contains};
ghost use Rattle.std.specs.Option.{option_map};
ghost use Rattle.index_entries.specs.Order.{IsAscending};
ghost use Rattle.index_entries.specs.Sets.{AddsEntry, IsLeast, IsAfter, IsBelow, IsLastOf};
ghost use Rattle.index_entries.specs.declared.node.TheConstants.{MOST_PARTS};
ghost use Rattle.entry_columns.specs.Fits.{Fits, FitsLabel};
ghost use Rattle.root_index.specs.View.{free_places, room_in};
ghost use Rattle.root_index.specs.Pieces.{RemovesPiece};

use crate::index::{Index, LookUp, PositionHint};
use crate::narrow::NarrowIndex;
use crate::progress::Progress;
use dead_places::DeadSet;
use entry_columns::{ColumnLabel, KeyLabel, Label, NarrowLabel};
use index_entries::Entry;
use std::alloc::{AllocError, Global};
use std::marker::Model;

/// An ordered set of entries: of an index by key, where each has its key as value, or of an index by a column.
#[derive(Debug, Drop)]
pub struct RootIndex {
    kind: Kind,
}

/// The kinds of index. What differs is how many bytes an entry has. It is private, so each call of a [`RootIndex`] finds the kind, and goes
/// on to its own.
#[derive(Debug, Drop)]
enum Kind {
    ByKey(Index<KeyLabel>),
    Narrow(NarrowIndex),
    ByColumn(Index<ColumnLabel>),
}

impl Model for RootIndex {
    ghost use Rattle.root_index.specs.View.{IndexView};

    ghost Value = { IndexView };

    ghost use Rattle.root_index.specs.Kinds.{kind_view};

    ghost view = { λ x. kind_view x.kind };
}

impl RootIndex {
    /// An index by a column, without entries.
    pub fn new(alloc: Global) -> Self
        ensures none { result.entries ≡ [] }
        ensures kind { result.is_by_key ≡ false }
        ensures narrow { result.is_narrow ≡ false }
    {
        RootIndex {
            kind: Kind::ByColumn(Index::new(alloc)),
        }
    }

    /// A narrow index by a column, without entries: it takes values and keys of 32 bits, an entry in 12 bytes, where one that takes any
    /// has 20.
    pub fn narrow(alloc: Global) -> Self
        ensures none { result.entries ≡ [] }
        ensures kind { result.is_by_key ≡ false }
        ensures narrow { result.is_narrow ≡ true }
    {
        RootIndex {
            kind: Kind::Narrow(NarrowIndex::new(alloc)),
        }
    }

    /// An index by key, without entries.
    pub fn by_key(alloc: Global) -> Self
        ensures none { result.entries ≡ [] }
        ensures kind { result.is_by_key ≡ true }
        ensures narrow { result.is_narrow ≡ false }
    {
        RootIndex {
            kind: Kind::ByKey(Index::new(alloc)),
        }
    }

    /// The number of entries.
    pub fn len(&self) -> u64
        ensures { result ≡ length self.now.entries }
    {
        match &self.kind {
            Kind::ByKey(index) => index.len(),
            Kind::Narrow(index) => index.entries().len(),
            Kind::ByColumn(index) => index.len(),
        }
    }

    /// That the entries are in ascending order, each once. It does nothing; its contract is the fact.
    pub fn fact_ascending(&self)
        ensures { IsAscending self.now.entries }
    {
        match &self.kind {
            Kind::ByKey(index) => index.fact_ascending(),
            Kind::Narrow(index) => index.entries().fact_ascending(),
            Kind::ByColumn(index) => index.fact_ascending(),
        }
    }

    /// Makes room in memory for `count` more entries, so that the next `count` of them are inserted without asking for any. An
    /// index that has an entry, or had one, has nodes for 128, and nothing has to grow as long as they are no more. Only else
    /// may it be refused. It is always refused where the number of entries would be above 2^64 - 1.
    pub fn make_room(&mut self, count: usize) -> Result<(), AllocError>
        ensures room { OnOk result (count ≤ room_in self.new) }
        ensures refused { OnErr result (room_in self.old < count) }
        ensures spare { self.old.spare ≤ self.new.spare }
        ensures entries { self.new.entries ≡ self.old.entries }
        ensures kind { self.new.is_by_key ≡ self.old.is_by_key }
        ensures narrow { self.new.is_narrow ≡ self.old.is_narrow }
        ensures err { OnErr result (self.new ≡ self.old) }
    {
        match &mut self.kind {
            Kind::ByKey(index) => index.make_room(count),
            Kind::Narrow(index) => index.make_room(count),
            Kind::ByColumn(index) => index.make_room(count),
        }
    }

    /// Makes an index by a column take entries of this value and this key. Where it is narrow, and they are not, it is so no more, and each
    /// entry has 20 bytes. All entries move for that, and the index takes twice as much meanwhile. Memory is refused only where there are
    /// 128 or more, and then all is as it was. Of the room that was made for more entries no more is kept than any index of so many has.
    pub fn widen_for(&mut self, value: i128, key: u64) -> Result<(), AllocError>
        ensures fits { OnOk result (FitsLabel self.old.is_by_key false value key
            → FitsLabel self.new.is_by_key self.new.is_narrow value key) }
        ensures entries { self.new.entries ≡ self.old.entries }
        ensures kind { self.new.is_by_key ≡ self.old.is_by_key }
        ensures same { FitsLabel self.old.is_by_key self.old.is_narrow value key
            → self.new ≡ self.old }
        ensures room { OnOk result
            (free_places (length self.old.entries) self.old.spare ≤ room_in self.new) }
        ensures refused { OnErr result ((MOST_PARTS ≤ length self.old.entries)
            × ¬ FitsLabel self.old.is_by_key self.old.is_narrow value key) }
        ensures err { OnErr result (self.new ≡ self.old) }
    {
        match &mut self.kind {
            Kind::Narrow(index) => {
                index.fact_kind();
                if NarrowLabel::fits(value, key) {
                    return Ok(());
                }
                let wide = index.take_wide()?;
                self.kind = Kind::ByColumn(wide);
            }
            Kind::ByKey(index) => index.fact_kind(),
            Kind::ByColumn(index) => index.fact_kind(),
        }
        Ok(())
    }

    /// Whether this entry can be in the index. In one by key its value is its key, in another its value is one of 64 bits, with a sign,
    /// and in a narrow one both are of 32. Its place is on one of the first 65,536 pages.
    pub fn fits(&self, entry: &Entry) -> bool
        ensures { IsTrue result ↔ Fits self.now.is_by_key self.now.is_narrow entry.now }
    {
        match &self.kind {
            Kind::ByKey(index) => index.fits(entry),
            Kind::Narrow(index) => index.entries().fits(entry),
            Kind::ByColumn(index) => index.fits(entry),
        }
    }

    /// Adds an entry that fits. One that is there already stays there once. Memory is refused only in two cases. In one the entry is not
    /// there, no room was made for it, and there was never an entry or there are 128 or more. (From 128 on a node may be full.) In the
    /// other the entries could not be counted any more. In both the entries stay as they were. The room that was made for others is kept
    /// where no node is split, and no leaf outgrows its places.
    pub fn insert(&mut self, entry: Entry) -> Result<(), AllocError>
        requires { Fits self.old.is_by_key self.old.is_narrow entry }
        ensures adds { OnOk result (AddsEntry self.old.entries self.new.entries entry) }
        ensures spare { OnOk result (self.old.spare ≤ self.new.spare + 1) }
        ensures room { OnOk result (room_in self.old ≤ room_in self.new + 1) }
        ensures spare_kept { Contains self.old.entries entry → self.old.spare ≤ self.new.spare }
        ensures nodes { self.old.nodes ≤ self.new.nodes }
        ensures unspent { OnOk result
            (self.new.nodes ≡ self.old.nodes → length self.new.entries + self.old.spare < 2 ^ 64
            → self.old.spare ≤ self.new.spare) }
        ensures memory { OnErr result ((room_in self.old ≡ 0) × ¬ Contains self.old.entries entry) }
        ensures err { OnErr result (self.new.entries ≡ self.old.entries) }
        ensures kind { self.new.is_by_key ≡ self.old.is_by_key }
        ensures narrow { self.new.is_narrow ≡ self.old.is_narrow }
    {
        match &mut self.kind {
            Kind::ByKey(index) => index.insert(entry),
            Kind::Narrow(index) => index.insert(entry),
            Kind::ByColumn(index) => index.insert(entry),
        }
    }

    /// The first entry after this one, be this one in the index or not; the first of all, where there is none.
    pub fn next_after(&self, from: Option<Entry>) -> Option<Entry>
        ensures { IsLeast self.now.entries (IsAfter from) result }
    {
        match &self.kind {
            Kind::ByKey(index) => index.next_after(from),
            Kind::Narrow(index) => index.entries().next_after(from),
            Kind::ByColumn(index) => index.next_after(from),
        }
    }

    /// The first entry after this one, and where it stood. Where the other still stands at the place that is given, that is
    /// found without a search.
    #[inline(always)]
    pub fn next_near(&self, from: Entry, near: PositionHint) -> Option<(Entry, PositionHint)>
        ensures { IsLeast self.now.entries (IsAfter (Some from))
            (option_map (λ found. found.0) result) }
    {
        match &self.kind {
            Kind::ByKey(index) => index.next_near(from, near),
            Kind::Narrow(index) => index.entries().next_near(from, near),
            Kind::ByColumn(index) => index.next_near(from, near),
        }
    }

    /// The first entry of this value and this key; or else the first of a higher key, or of a higher value. And where it stood. It is
    /// not known to be the last of its value and key where it is the last of its leaf.
    #[inline(always)]
    pub fn first_from(&self, value: i128, key: u64) -> LookUp
        ensures found { IsLeast self.now.entries (λ e. ¬ IsBelow value key e) result.found }
        ensures last { IsTrue result.is_last → IfSome result.found (IsLastOf self.now.entries) }
    {
        match &self.kind {
            Kind::ByKey(index) => index.first_from(value, key),
            Kind::Narrow(index) => index.entries().first_from(value, key),
            Kind::ByColumn(index) => index.first_from(value, key),
        }
    }

    /// Says that the next entry that is inserted goes right before or right behind this position. So it is looked for there first, and
    /// searched for only where it goes elsewhere.
    pub fn expect(&mut self, near: PositionHint)
        ensures { self.new ≡ self.old }
    {
        match &mut self.kind {
            Kind::ByKey(index) => index.expect(near),
            Kind::Narrow(index) => index.expect(near),
            Kind::ByColumn(index) => index.expect(near),
        }
    }

    /// Goes over the entries after this one, or over all, as far as the leaf goes that holds the first of them, and removes those
    /// to dead places. Says how far it came, so that the next call goes on from there. It also says where the entry stood to which
    /// it came. Where that still stands there, the next call doesn't search for it. It takes no memory, and keeps all room: the
    /// last nodes that are emptied are set aside.
    pub fn remove_where(
        &mut self,
        dead: &DeadSet,
        from: Option<Entry>,
        near: PositionHint,
    ) -> (Progress, PositionHint)
        ensures piece { RemovesPiece self.old.entries self.new.entries dead.now from result.0 }
        ensures spare { self.old.spare ≤ self.new.spare }
        ensures room { room_in self.old ≤ room_in self.new }
        ensures kind { self.new.is_by_key ≡ self.old.is_by_key }
        ensures narrow { self.new.is_narrow ≡ self.old.is_narrow }
    {
        match &mut self.kind {
            Kind::ByKey(index) => index.remove_where(dead, from, near),
            Kind::Narrow(index) => index.remove_where(dead, from, near),
            Kind::ByColumn(index) => index.remove_where(dead, from, near),
        }
    }
}
