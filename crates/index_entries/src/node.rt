//! Nodes: what an index is made of.

ghost use Rattle.std.specs.Prelude.{◌≡◌, ◌<◌, ◌≤◌, ◌+◌, ◌*◌, ◌++◌, ◌⊎◌, ℕ, List, [], length, slice_get, IfOk, IfErr, IfSome, IfNone, IsTrue, OnOk, OnErr, ◌↔◌};
ghost use Rattle.std.specs.Bool.{OnTrue};
ghost use Rattle.std.specs.List.{insert};
ghost use Rattle.std.specs.Option.{option_map};
ghost use Rattle.index_entries.specs.declared.entry.Entry.{Entry as Seen};
ghost use Rattle.index_entries.specs.Order.{IsAscending};
ghost use Rattle.index_entries.specs.Sets.{IsAt, IsEndAt, IsGapFor, GoesBehind, GoesBefore};
ghost use Rattle.index_entries.specs.Lists.{begins_after};
ghost use Rattle.index_entries.specs.Halves.{IsHalf, rank_half};
ghost use Rattle.index_entries.specs.Sweeps.{IsSwept};

use crate::entry::Entry;
use dead_places::DeadSet;
use std::alloc::{AllocError, Global};

/// A node has at most so many parts.
pub const MOST_PARTS: usize = 128;

/// Where a full node is split, so many parts stay in it, counting an entry that it is split for.
pub const HALF: usize = 64;

/// Where a position is when its node was split.
#[derive(Clone, Copy, Debug)]
pub enum Half<S> {
    Lower(S),
    Upper(S),
}

/// What a sweep did.
#[derive(Clone, Copy, Debug)]
pub struct Swept<S> {
    /// The entry that it looked at last, removed or not.
    pub last: Entry,
    /// Where that entry stands, if it was not removed. It is no more than a hint.
    pub at: S,
    /// The number of entries that it removed.
    pub removed: u64,
    /// Whether an entry follows the last one.
    pub more: bool,
}

/// A leaf, whose parts are entries, or a branch, whose parts are smaller nodes: at most 128, in order.
pub trait Node: Drop {
    /// Where an entry stands, or where it would.
    type Position: Copy;

    /// The nodes that splits of its parts take.
    type Spares: Drop;

    // the entries, in order
    ghost entries: { Self → List Seen };

    // the number of parts
    ghost size: { Self → ℕ };

    // the number of nodes that it is made of, itself among them, where a leaf with places for 128 entries counts twice
    ghost nodes: { Self → ℕ };

    // the number of leaves with places for 128 entries that have 64 or more
    ghost long: { Self → ℕ };

    // which entries it may have
    ghost Fits: { Seen → Type 0 };

    // no part is empty
    ghost IsNeat: { Self → Type 0 };

    // where an entry may be put
    ghost IsPosition: { Self → Self.Position → Type 0 };

    // where an entry stands
    ghost IsEntry: { Self → Self.Position → Type 0 };

    // the number of entries before the position
    ghost rank: { Self → Self.Position → ℕ };

    // enough for so many inserts
    ghost HasLeft: { Self.Spares → ℕ → Type 0 };

    // each kind of them has a place for one that is emptied
    ghost HasPlaces: { Self.Spares → Type 0 };

    // among them are places for 128 entries, so that a leaf with fewer gets them without memory
    ghost HasReserve: { Self.Spares → Type 0 };

    /// A node without parts.
    fn new(alloc: Global) -> Result<Self, AllocError>
        ensures none { IfOk result (λ node. size node ≡ 0) }
        ensures neat { IfOk result IsNeat };

    /// Takes all parts out.
    fn clear(&mut self)
        ensures none { size self.new ≡ 0 }
        ensures neat { IsNeat self.new };

    /// The number of parts.
    fn len(&self) -> usize
        ensures value { result ≡ size self.now }
        ensures limit { result ≤ MOST_PARTS };

    /// Whether the entry precedes the first of the node.
    fn begins_after(&self, sought: &Entry) -> bool
        requires neat { IsNeat self.now }
        requires some { 0 < size self.now }
        ensures { result ≡ begins_after sought.now (entries self.now) };

    /// Where the entry stands, or where it would.
    fn search(&self, sought: &Entry) -> Result<Self::Position, Self::Position>
        requires neat { IsNeat self.now }
        requires ascending { IsAscending (entries self.now) }
        ensures entry { IfOk result (IsEntry self.now) }
        ensures found { IfOk result
            (λ position. IsAt (entries self.now) sought.now (rank self.now position)) }
        ensures position { IfErr result (IsPosition self.now) }
        ensures absent { IfErr result
            (λ position. IsGapFor (entries self.now) sought.now (rank self.now position)) };

    /// Whether this entry stands at this position.
    fn stands_at(&self, sought: &Entry, position: Self::Position) -> bool
        ensures entry { OnTrue result (IsEntry self.now position) }
        ensures found { OnTrue result
            (IsAt (entries self.now) sought.now (rank self.now position)) }
        ensures exact { IsEntry self.now position
            → IsAt (entries self.now) sought.now (rank self.now position) → IsTrue result };

    /// The first position of any node.
    fn first() -> Self::Position
        ensures position { (node : Self) → IsNeat node → IsPosition node result }
        ensures rank { (node : Self) → rank node result ≡ 0 };

    /// The position right behind an entry's.
    fn behind(position: Self::Position) -> Self::Position
        ensures position { (node : Self) → IsEntry node position → IsPosition node result }
        ensures rank { (node : Self) → IsEntry node position
            → rank node result ≡ rank node position + 1 };

    /// The entry at this position, if there is one.
    fn entry_at(&self, position: Self::Position) -> Option<Entry>
        requires neat { IsNeat self.now }
        requires position { IsPosition self.now position }
        ensures { result ≡ slice_get (entries self.now) (rank self.now position) };

    /// The entry at this position, if there is one; and whether it is known that the next is of another value or another key. Of
    /// the last entry of a leaf nothing is known.
    fn look_at(&self, position: Self::Position) -> Option<(Entry, bool)>
        requires neat { IsNeat self.now }
        requires position { IsPosition self.now position }
        ensures entry { option_map (λ found. found.0) result
            ≡ slice_get (entries self.now) (rank self.now position) }
        ensures end { IfSome result
            (λ found. IsTrue found.1
            → IsEndAt (entries self.now) found.0 (rank self.now position)) };

    /// Where the entry goes, if that is right before or right behind this position, and between two entries of one leaf. Or it goes at
    /// the end, where no entries follow the node, which `is_last` says.
    fn gap_near(
        &self,
        sought: &Entry,
        near: Self::Position,
        is_last: bool,
    ) -> Option<Self::Position>
        requires { IsAscending (entries self.now) }
        ensures position { IfSome result (IsPosition self.now) }
        ensures behind { IfSome result
            (λ position. GoesBehind (entries self.now) sought.now (rank self.now position)) }
        ensures before { IfSome result
            (λ position. GoesBefore (entries self.now) sought.now is_last
            (rank self.now position)) };

    /// Moves the upper parts of a full node to one without any, and says where the position is then. It takes no memory.
    fn split(&mut self, upper: &mut Self, position: Self::Position) -> Half<Self::Position>
        requires full { size self.old ≡ MOST_PARTS }
        requires none { size upper.old ≡ 0 }
        requires neat { IsNeat self.old }
        requires position { IsPosition self.old position }
        ensures entries { entries self.new ++ entries upper.new ≡ entries self.old }
        ensures part { (0 < size self.new) × (size self.new < MOST_PARTS) }
        ensures part_too { (0 < size upper.new) × (size upper.new < MOST_PARTS) }
        ensures neat { IsNeat self.new }
        ensures neat_too { IsNeat upper.new }
        ensures nodes { nodes self.old < nodes self.new + nodes upper.new }
        ensures long { long self.old ≤ long self.new + long upper.new }
        ensures position { IsHalf IsPosition self.new upper.new result }
        ensures rank { rank_half entries rank self.new upper.new result ≡ rank self.old position };

    /// Puts an entry at this position. Where memory is refused, the entries stay as they are.
    fn insert(
        &mut self,
        spares: &mut Self::Spares,
        position: Self::Position,
        entry: Entry,
    ) -> Result<(), AllocError>
        requires room { size self.old < MOST_PARTS }
        requires neat { IsNeat self.old }
        requires position { IsPosition self.old position }
        requires fits { Fits entry }
        ensures entries { OnOk result
            (entries self.new ≡ insert (entries self.old) (rank self.old position) entry) }
        ensures some { OnOk result (0 < size self.new) }
        ensures kept { size self.old ≤ size self.new }
        ensures neat { IsNeat self.new }
        ensures grown { nodes self.old ≤ nodes self.new }
        ensures spares { (k : ℕ) → HasLeft spares.old (k + 1) → HasLeft spares.new k }
        ensures unspent { OnOk result
            (nodes self.new ≡ nodes self.old → (k : ℕ) → HasLeft spares.old k
            → HasLeft spares.new k) }
        ensures places { HasPlaces spares.old → HasPlaces spares.new }
        ensures first { OnOk result
            (size self.old ≡ 0 → HasPlaces spares.new × HasReserve spares.new) }
        ensures long { long self.old ≤ long self.new }
        ensures reserve { OnOk result
            (HasReserve spares.old → HasReserve spares.new ⊎ (long self.old < long self.new)) }
        ensures reserve_kept { OnErr result (HasReserve spares.old → HasReserve spares.new) }
        ensures err { OnErr result (entries self.new ≡ entries self.old) }
        ensures refused { OnErr result (¬ HasLeft spares.old 1) }
        ensures full { OnErr result
            ((size self.old ≡ 0) ⊎ (MOST_PARTS ≤ length (entries self.old))
            ⊎ (¬ HasReserve spares.old
            × (HALF * (long self.old + 1) ≤ length (entries self.old)))) };

    /// Removes entries to dead places, from this position on as far as its leaf goes. The parts that are left without any are set
    /// aside, if there is a place for them. It does nothing where no entry follows.
    fn sweep_from(
        &mut self,
        spares: &mut Self::Spares,
        position: Self::Position,
        dead: &DeadSet,
    ) -> Option<Swept<Self::Position>>
        requires neat { IsNeat self.old }
        requires position { IsPosition self.old position }
        ensures swept { IfSome result
            (IsSwept (entries self.old) (entries self.new) (rank self.old position) dead.now) }
        ensures none { IfNone result (length (entries self.old) ≤ rank self.old position) }
        ensures same { IfNone result (self.new ≡ self.old) }
        ensures neat { IsNeat self.new }
        ensures spares { (k : ℕ) → HasLeft spares.old k → HasLeft spares.new k }
        ensures places { HasPlaces spares.old → HasPlaces spares.new }
        ensures emptied { 0 < size self.old → size self.new ≡ 0 → HasPlaces spares.old
            → HasReserve spares.new → HasLeft spares.new 1 }
        ensures reserve { HasReserve spares.old → HasReserve spares.new }
        ensures returned { HasPlaces spares.old
            → HasReserve spares.new ⊎ (long self.old ≤ long self.new) };

    /// Reads what a sweep for these dead places will read, and nothing else comes of it. So memory is waited for but once for several nodes.
    fn touch(&self, dead: &DeadSet) -> u32;

    /// Keeps what was read so, for nothing: else the compiler would leave the reading out.
    fn take_touched(spares: &mut Self::Spares, touched: u32)
        ensures { spares.new ≡ spares.old };

    /// No spares.
    fn no_spares(alloc: Global) -> Self::Spares;

    /// Whether spares are enough for so many inserts.
    fn has_left(spares: &Self::Spares, count: usize) -> bool
        ensures { IsTrue result ↔ HasLeft spares.now count };

    /// Adds spares until they are enough for so many inserts.
    fn add_spares(spares: &mut Self::Spares, count: usize) -> Result<(), AllocError>
        ensures ok { OnOk result (HasLeft spares.new count) }
        ensures kept { (k : ℕ) → HasLeft spares.old k → HasLeft spares.new k }
        ensures places { HasPlaces spares.old → HasPlaces spares.new }
        ensures reserve { HasReserve spares.old → HasReserve spares.new }
        ensures err { OnErr result (¬ HasLeft spares.old count) };

    // a node without parts has no entries, and any other has some
    ghost none: { (node : Self) → size node ≡ 0 → entries node ≡ [] };

    ghost some: { (node : Self) → IsNeat node → 0 < size node → 0 < length (entries node) };

    // so it has no fewer entries than parts
    ghost many: { (node : Self) → IsNeat node → size node ≤ length (entries node) };

    // it is a node itself
    ghost itself: { (node : Self) → 0 < nodes node };

    // each of its long leaves has half of the entries that one may have
    ghost halves: { (node : Self) → 64 * long node ≤ length (entries node) };

    // an entry stands before the end of the node
    ghost inside: { (node : Self) (position : Self.Position) → IsEntry node position
        → rank node position < length (entries node) };

    // where an entry stands another may be put
    ghost before: { (node : Self) (position : Self.Position) → IsEntry node position
        → IsPosition node position };

    // a position is in the node, or right after its last entry
    ghost within: { (node : Self) (position : Self.Position) → IsPosition node position
        → rank node position ≤ length (entries node) };

    // what is enough is enough for fewer
    ghost fewer: { (spares : Self.Spares) (k : ℕ) → HasLeft spares (k + 1) → HasLeft spares k };
}
