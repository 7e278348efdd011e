//! An index of entries with labels of one kind.

ghost use Rattle.std.specs.Prelude.{◌≡◌, ◌↔◌, ◌<◌, ◌≤◌, ◌+◌, ◌^◌, [], length, OnOk, OnErr, Some, IfSome, IsTrue, Contains, vec_len, vec_capacity, true, false};
ghost use Rattle.std.specs.Option.{option_map};
ghost use Rattle.index_entries.specs.Order.{IsAscending};
ghost use Rattle.index_entries.specs.Sets.{AddsEntry, IsLeast, IsAfter, IsBelow, IsLastOf};
ghost use Rattle.entry_columns.specs.Fits.{Fits};
ghost use Rattle.root_index.specs.View.{free_places, room_in};
ghost use Rattle.root_index.specs.Pieces.{RemovesPiece};
ghost use Rattle.root_index.specs.declared.progress.Progress.TheVariants.{More, Done};

use crate::look_ups;
use crate::progress::Progress;
use dead_places::DeadSet;
use entry_columns::{Label, fits};
use index_entries::{Entry, Node, Swept};
use index_leaves::{Leaf, SpareLists};
use index_nodes::Branch;
use index_nodes::nodes::{self, Spares, TreePosition};
use std::alloc::{AllocError, Global};
use std::marker::Model;

/// What the entries stand in: 128 branches at most, of 128 leaves at most, of 128 entries at most.
type Tree<L> = Branch<Branch<Leaf<L>>>;

/// Where an entry stood when it was found; the first place of all, by default. It may stand elsewhere since, or nowhere; then
/// the next is searched for.
#[derive(Clone, Copy, Debug, Default, PartialEq, Eq)]
pub struct PositionHint {
    position: TreePosition<TreePosition<TreePosition<usize>>>,
}

/// What a look-up of a value and a key found.
#[derive(Clone, Copy, Debug, PartialEq, Eq)]
pub struct LookUp {
    /// The first entry that is not below them, if there is one.
    pub found: Option<Entry>,
    /// Where it stood, or where it would stand.
    pub near: PositionHint,
    /// Whether it is known that no other entry of its value and its key comes after it. That is so too where none was found.
    pub is_last: bool,
}

/// An ordered set of entries.
#[derive(Debug, Drop)]
pub(crate) struct Index<L: Label> {
    /// The entries. No node is empty, and one that is split keeps half: so there is one tree here for each 262,144 entries or
    /// more, where none were removed. An insert moves no more than a leaf's entries, and where it splits a node
    /// its upper half, and the parts of the node above it or of this list.
    trees: Vec<Tree<L>>,
    /// Nodes for splits to come.
    spares: Spares<Tree<L>, Spares<Branch<Leaf<L>>, Spares<Leaf<L>, SpareLists<L>>>>,
    /// The number of entries.
    count: u64,
    /// So many more entries take no memory.
    promised: usize,
    /// Where the next insert looks first, if it was told so.
    expected: Option<TreePosition<TreePosition<TreePosition<usize>>>>,
}

impl<L: Label> Model for Index<L> {
    ghost use Rattle.std.specs.Prelude.{◌-◌, vec_len, vec_capacity};
    ghost use Rattle.root_index.specs.View.{IndexView};
    ghost use Rattle.index_nodes.specs.Nodes.{HavePlaces};
    ghost use Rattle.root_index.specs.Trees.{among, nodes_of, AreBranchesLeft, HaveBranchPlaces, HaveReserve, IsSoundIndex};

    ghost Value = { IndexView };

    ghost view = { λ x. record {
      entries = among x.trees.items;
      spare = x.promised;
      nodes = nodes_of x.trees.items;
      is_by_key = L.is_by_key;
      is_narrow = L.is_narrow;
    } };

    ghost invariant = { λ x. IsSoundIndex x.trees.items (record {
      places = vec_capacity x.trees - vec_len x.trees;
      trees = vec_len x.spares.nodes;
      HasLeft = AreBranchesLeft x.spares.below;
      HasPlaces = HavePlaces HaveBranchPlaces (vec_capacity x.spares.nodes) x.spares.below;
      HasReserve = HaveReserve x.spares.below;
    }) x.count x.promised };
}

impl<L: Label> Index<L> {
    /// An index without entries.
    pub(crate) fn new(alloc: Global) -> Self
        ensures none { result.entries ≡ [] }
        ensures spare { result.spare ≡ 0 }
        ensures kind { result.is_by_key ≡ L.is_by_key }
        ensures narrow { result.is_narrow ≡ L.is_narrow }
    {
        Index {
            trees: Vec::new(alloc),
            spares: Spares {
                nodes: Vec::new(alloc),
                below: Tree::<L>::no_spares(alloc),
            },
            count: 0,
            promised: 0,
            expected: None,
        }
    }

    /// What it takes memory from. (The trees are private to this type.)
    pub(crate) fn allocator(&self) -> Global {
        *self.trees.allocator()
    }

    /// That its kind is that of its labels. It does nothing; its contract is the fact.
    pub(crate) fn fact_kind(&self)
        ensures kind { self.now.is_by_key ≡ L.is_by_key }
        ensures narrow { self.now.is_narrow ≡ L.is_narrow }
    {
        let _count = self.count;
    }

    /// The number of entries.
    pub(crate) fn len(&self) -> u64
        ensures { result ≡ length self.now.entries }
    {
        self.count
    }

    /// That the entries are in ascending order, each once. It does nothing; its contract is the fact.
    pub(crate) fn fact_ascending(&self)
        ensures { IsAscending self.now.entries }
    {
        let _count = self.count;
    }

    /// Makes room in memory for `count` more entries, so that the next `count` of them are inserted without asking for any. An
    /// index that has an entry, or had one, has nodes for 128, and nothing has to grow as long as they are no more. Only else
    /// may it be refused. It is always refused where the number of entries would be above 2^64 - 1.
    pub(crate) fn make_room(&mut self, count: usize) -> Result<(), AllocError>
        ensures room { OnOk result (count ≤ room_in self.new) }
        ensures refused { OnErr result (room_in self.old < count) }
        ensures spare { self.old.spare ≤ self.new.spare }
        ensures entries { self.new.entries ≡ self.old.entries }
        ensures kind { self.new.is_by_key ≡ self.old.is_by_key }
        ensures narrow { self.new.is_narrow ≡ self.old.is_narrow }
        ensures err { OnErr result (self.new ≡ self.old) }
    {
        // so most of the time: only a split uses up what was set aside
        if count <= self.promised {
            return Ok(());
        }
        if count as u64 <= free_places(self.count, self.promised) {
            return Ok(());
        }
        self.set_aside(count)
    }

    /// Sets nodes aside for `count` more entries. Each may split a node of each kind. So these are as many leaves, of 0.75 or 1.25 KiB,
    /// and as many branches of them, of 16 KiB, and trees, of 3. Or it takes a leaf that outgrows its list a larger one, of 1.5 or 2.5
    /// KiB.
    fn set_aside(&mut self, count: usize) -> Result<(), AllocError>
        ensures room { OnOk result (count ≤ self.new.spare) }
        ensures refused { OnErr result (self.old.spare < count) }
        ensures spare { self.old.spare ≤ self.new.spare }
        ensures entries { self.new.entries ≡ self.old.entries }
        ensures kind { self.new.is_by_key ≡ self.old.is_by_key }
        ensures narrow { self.new.is_narrow ≡ self.old.is_narrow }
        ensures err { OnErr result (self.new ≡ self.old) }
    {
        // so many more could not be counted
        if u64::MAX - self.count < count as u64 {
            return ask_for_too_much(&mut self.trees);
        }
        self.trees.try_reserve(count)?;
        nodes::add_nodes(&mut self.spares.nodes, count)?;
        Tree::<L>::add_spares(&mut self.spares.below, count)?;
        self.promised = self.promised.max(count);
        Ok(())
    }

    /// Whether this entry can be in the index: its kind is known here alone.
    pub(crate) fn fits(&self, entry: &Entry) -> bool
        ensures { IsTrue result ↔ Fits self.now.is_by_key self.now.is_narrow entry.now }
    {
        let _count = self.count;
        fits::<L>(entry)
    }

    /// Adds an entry. One that is there already stays there once. Memory is refused only in two cases. In one the entry is not there, no
    /// room was made for it, and there was never an entry or there are 128 or more. (From 128 on a node may be full.) In the other the
    /// entries could not be counted any more. In both the entries stay as they were. The room that was made for others is kept where no
    /// node is split, and no leaf outgrows its places.
    pub(crate) fn insert(&mut self, entry: Entry) -> Result<(), AllocError>
        requires { Fits self.old.is_by_key self.old.is_narrow entry }
        ensures kind { self.new.is_by_key ≡ self.old.is_by_key }
        ensures narrow { self.new.is_narrow ≡ self.old.is_narrow }
        ensures adds { OnOk result (AddsEntry self.old.entries self.new.entries entry) }
        ensures spare { OnOk result (self.old.spare ≤ self.new.spare + 1) }
        ensures room { OnOk result (room_in self.old ≤ room_in self.new + 1) }
        ensures spare_kept { Contains self.old.entries entry → self.old.spare ≤ self.new.spare }
        ensures nodes { self.old.nodes ≤ self.new.nodes }
        ensures unspent { OnOk result
            (self.new.nodes ≡ self.old.nodes → length self.new.entries + self.old.spare < 2 ^ 64
            → self.old.spare ≤ self.new.spare) }
        ensures memory { OnErr result ((room_in self.old ≡ 0) × ¬ Contains self.old.entries entry) }
        ensures err { OnErr result (self.new.entries ≡ self.old.entries) }
    {
        let expected = self.expected.take();
        let position = match look_ups::position_for(&self.trees, &entry, expected) {
            Ok(_) => return Ok(()),
            Err(position) => position,
        };
        // one more could not be counted
        if self.count == u64::MAX {
            return ask_for_too_much(&mut self.trees);
        }
        nodes::insert(&mut self.trees, &mut self.spares, position, entry)?;
        self.count += 1;
        self.promised = nodes::still_promised(&self.trees, &self.spares, self.count, self.promised);
        Ok(())
    }

    /// The first entry after this one, be this one in the index or not; the first of all, where there is none.
    pub(crate) fn next_after(&self, from: Option<Entry>) -> Option<Entry>
        ensures { IsLeast self.now.entries (IsAfter from) result }
    {
        let position = look_ups::position_after(&self.trees, from);
        nodes::entry_at(&self.trees, position)
    }

    /// The first entry after this one, and where it stood. Where the other still stands at the place that is given, that is
    /// found without a search.
    pub(crate) fn next_near(&self, from: Entry, near: PositionHint) -> Option<(Entry, PositionHint)>
        ensures { IsLeast self.now.entries (IsAfter (Some from))
            (option_map (λ found. found.0) result) }
    {
        let position = look_ups::position_near(&self.trees, Some(from), near.position);
        match nodes::entry_at(&self.trees, position) {
            Some(entry) => Some((entry, PositionHint { position })),
            None => None,
        }
    }

    /// The first entry of this value and this key; or else the first of a higher key, or of a higher value. And where it stood. It is
    /// not known to be the last of its value and key where it is the last of its leaf.
    #[inline(always)]
    pub(crate) fn first_from(&self, value: i128, key: u64) -> LookUp
        ensures found { IsLeast self.now.entries (λ e. ¬ IsBelow value key e) result.found }
        ensures last { IsTrue result.is_last → IfSome result.found (IsLastOf self.now.entries) }
    {
        let position = look_ups::position_from(&self.trees, value, key);
        let near = PositionHint { position };
        match nodes::look_at(&self.trees, position) {
            Some((entry, is_last)) => LookUp {
                found: Some(entry),
                near,
                is_last,
            },
            None => LookUp {
                found: None,
                near,
                is_last: true,
            },
        }
    }

    /// Says that the next entry that is inserted goes right before or right behind this position. So it is looked for there first, and
    /// searched for only where it goes elsewhere.
    pub(crate) fn expect(&mut self, near: PositionHint)
        ensures { self.new ≡ self.old }
    {
        self.expected = Some(near.position);
    }

    /// Goes over the entries after this one, or over all, as far as the leaf goes that holds the first of them, and removes those
    /// to dead places. Says how far it came, so that the next call goes on from there. It also says where the entry stood to which
    /// it came. Where that still stands there, the next call doesn't search for it. It takes no memory, and keeps all room: the
    /// last nodes that are emptied are set aside.
    pub(crate) fn remove_where(
        &mut self,
        dead: &DeadSet,
        from: Option<Entry>,
        near: PositionHint,
    ) -> (Progress, PositionHint)
        ensures piece { RemovesPiece self.old.entries self.new.entries dead.now from result.0 }
        ensures spare { self.old.spare ≤ self.new.spare }
        ensures room { room_in self.old ≤ room_in self.new }
        ensures kind { self.new.is_by_key ≡ self.old.is_by_key }
        ensures narrow { self.new.is_narrow ≡ self.old.is_narrow }
    {
        let position = look_ups::position_near(&self.trees, from, near.position);
        match nodes::sweep_from(&mut self.trees, &mut self.spares, position, dead) {
            Some(swept) => {
                self.count -= swept.removed;
                self.promised = nodes::promised_after_sweep(&self.trees, self.promised);
                came_to(swept)
            }
            None => (Progress::Done, PositionHint::default()),
        }
    }
}

/// How far a sweep came, and where the entry stands to which it came.
fn came_to(
    swept: Swept<TreePosition<TreePosition<TreePosition<usize>>>>,
) -> (Progress, PositionHint)
    ensures more { swept.more ≡ true → result.0 ≡ More swept.last }
    ensures done { swept.more ≡ false → result.0 ≡ Done }
{
    let near = PositionHint { position: swept.at };
    if swept.more {
        (Progress::More(swept.last), near)
    } else {
        (Progress::Done, near)
    }
}

/// How many entries an index of so many takes without another node, wherever they go, with nodes set aside for `promised` more.
fn free_places(count: u64, promised: usize) -> u64
    ensures { result ≡ free_places count promised }
{
    if count == 0 && promised == 0 {
        0
    } else {
        128u64.saturating_sub(count)
    }
}

/// Asks for memory for more trees than there may be. The error is the allocator's, as every one here.
fn ask_for_too_much<L: Label>(trees: &mut Vec<Tree<L>>) -> Result<(), AllocError>
    requires { 0 < vec_len trees.old }
    ensures refused { OnOk result ⊥ }
    ensures same { trees.new.items ≡ trees.old.items }
    ensures len { vec_len trees.new ≡ vec_len trees.old }
    ensures capacity { vec_capacity trees.old ≤ vec_capacity trees.new }
{
    trees.try_reserve(usize::MAX)
}
