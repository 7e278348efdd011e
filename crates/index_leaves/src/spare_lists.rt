//! Lists with places for entries, which leaves take and give back.

ghost use Rattle.std.specs.Prelude.{◌≡◌, ◌<◌, ◌≤◌, ◌+◌, ◌⊎◌, length, OnOk, OnErr};
ghost use Rattle.index_leaves.specs.Lists.{HaveListPlaces};

use entry_columns::{EntryColumns, Label};
use index_entries::{HALF, MOST_PARTS};
use std::alloc::{AllocError, Global};
use std::marker::Model;
use std::mem;

/// Lists for leaves that outgrow theirs.
#[derive(Debug, Drop)]
pub struct SpareLists<L: Label> {
    /// Each has places for 128 entries.
    large: Vec<EntryColumns<L>>,
    /// That of a leaf which took a large one: with it a leaf that is left with few entries gives its large one back.
    small: Option<EntryColumns<L>>,
    /// What was read ahead. Nobody asks for it.
    touched: u32,
}

impl<L: Label> Model for SpareLists<L> {
    ghost use Rattle.std.specs.Prelude.{◌≤◌, length, vec_len, vec_capacity};
    ghost use Rattle.std.specs.List.{All};
    ghost use Rattle.std.specs.Option.{option_to_list};
    ghost use Rattle.index_entries.specs.declared.node.TheConstants.{MOST_PARTS};
    ghost use Rattle.index_leaves.specs.Lists.{ListsView};

    ghost Value = { ListsView };

    ghost view = { λ s. record {
      large = vec_len s.large;
      places = vec_capacity s.large;
      small = length (option_to_list s.small);
    } };

    ghost invariant = { λ s. All (λ list. MOST_PARTS ≤ list.room) s.large.items };
}

impl<L: Label> SpareLists<L> {
    /// No lists.
    pub(crate) fn new(alloc: Global) -> Self {
        SpareLists {
            large: Vec::new(alloc),
            small: None,
            touched: 0,
        }
    }

    /// Notes what was read ahead.
    pub(crate) fn note(&mut self, touched: u32)
        ensures { self.new ≡ self.old }
    {
        self.touched = touched;
    }

    /// The number of large ones. (The lists are private to this type.)
    pub(crate) fn len(&self) -> usize
        ensures { result ≡ self.now.large }
    {
        self.large.len()
    }

    /// Adds large ones until there are so many.
    pub(crate) fn add(&mut self, count: usize) -> Result<(), AllocError>
        ensures ok { OnOk result (count ≤ self.new.large) }
        ensures within { self.new.large ≤ self.new.places }
        ensures large { self.old.large ≤ self.new.large }
        ensures places { self.old.places ≤ self.new.places }
        ensures small { self.new.small ≡ self.old.small }
        ensures err { OnErr result (self.old.large < count) }
    {
        while self.large.len() < count {
            let list = EntryColumns::new(*self.large.allocator(), MOST_PARTS)?;
            self.large.push(list)?;
        }
        Ok(())
    }

    /// Moves entries to a large list, a spare one or else a new one, and keeps theirs.
    pub(crate) fn widen(&mut self, entries: &mut EntryColumns<L>) -> Result<(), AllocError>
        ensures entries { entries.new.entries ≡ entries.old.entries }
        ensures room { OnOk result (MOST_PARTS ≤ entries.new.room) }
        ensures large { self.old.large ≤ self.new.large + 1 }
        ensures places { HaveListPlaces self.old → HaveListPlaces self.new }
        ensures err { OnErr result (entries.new ≡ entries.old) }
        ensures same { OnErr result (self.old.large ≤ self.new.large) }
        ensures refused { OnErr result (self.old.large ≡ 0) }
    {
        let mut list = match self.large.pop() {
            Some(list) => list,
            None => EntryColumns::new(*self.large.allocator(), MOST_PARTS)?,
        };
        entries.move_before(entries.len(), &mut list);
        mem::swap(entries, &mut list);
        self.small = Some(list);
        Ok(())
    }

    /// Takes a large list back where none is left, and few entries are in one: they move to the small one.
    pub(crate) fn take_back(&mut self, entries: &mut EntryColumns<L>)
        ensures entries { entries.new.entries ≡ entries.old.entries }
        ensures large { self.old.large ≤ self.new.large }
        ensures places { HaveListPlaces self.old → HaveListPlaces self.new }
        ensures back { HaveListPlaces self.old → MOST_PARTS ≤ entries.old.room
            → length entries.old.entries < HALF → 0 < self.new.large }
        ensures room { (0 < self.new.large) ⊎ (entries.old.room ≤ entries.new.room) }
    {
        if self.large.len() > 0 || self.large.capacity() == 0 {
            return;
        }
        if entries.len() >= HALF || entries.room() < MOST_PARTS {
            return;
        }
        if let Some(mut list) = self.small.take() {
            entries.move_before(entries.len(), &mut list);
            mem::swap(entries, &mut list);
            self.large.push_reserved(list);
        }
    }
}
