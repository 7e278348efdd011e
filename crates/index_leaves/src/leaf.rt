//! A leaf: entries that stand together in memory.

ghost use Rattle.std.specs.Prelude.{◌≡◌, ◌<◌, ◌≤◌, ◌+◌, ◌-◌, ◌++◌, ◌⊎◌, ◌↔◌, length, take, drop, not, IfOk, IfErr, IfSome, IfNone, IsTrue, OnOk, OnErr, Some, false, slice_get, vec_len, vec_capacity};
ghost use Rattle.std.proofs.Common.{arith};
ghost use Rattle.std.proofs.lemmas.List.{nil_from_length};
ghost use Rattle.std.specs.List.{insert, filter};
ghost use Rattle.std.specs.Option.{option_map};
ghost use Rattle.index_entries.specs.Order.{IsAscending};
ghost use Rattle.index_entries.specs.Sets.{IsAt, IsEndAt, IsGapFor, GoesBehind, GoesBefore};
ghost use Rattle.index_entries.specs.Lists.{IsFirst, IsLast, stays};
ghost use Rattle.entry_columns.specs.Fits.{Fits};
ghost use Rattle.index_leaves.specs.Lists.{halves_more, long_leaves, Outgrows, IsSmallAndFull, HaveListPlaces};
ghost use Rattle.dead_places.specs.Places.{AreAscending};

use crate::spare_lists::SpareLists;
use dead_places::DeadSet;
use entry_columns::{EntryColumns, Gap, Label, all_places, holds, without};
use index_entries::{Entry, HALF, Half, MOST_PARTS, Node, Swept, compare, is_before, is_same};
use std::alloc::{AllocError, Global};
use std::marker::Model;
use std::mem;
use xid_circle::Tid;

/// At most 128 entries. It begins with places for 64, of 0.75 KiB in an index by key and 1.25 KiB in another. It gets a list of twice as
/// many where it outgrows these. Where it is split the upper half keeps the large list.
#[derive(Debug, Drop)]
pub struct Leaf<L: Label> {
    /// The first entry, if there is one. A search that passes this leaf looks at nothing else of it, and the leaves of a branch
    /// stand together in memory, where their entries don't.
    first: Entry,
    /// The last entry, if there is one. So a sweep passes a leaf without a look at its entries, where none leads to a dead place.
    last: Entry,
    entries: EntryColumns<L>,
    /// No entry leads to these places.
    gap: Gap,
    /// How far the last value was behind the first when one of them was put there: a hint where to look.
    spread: u64,
}

impl<L: Label> Model for Leaf<L> {
    ghost use Rattle.entry_columns.specs.Columns.{ColumnsView};
    ghost use Rattle.index_leaves.specs.Keeps.{IsLeaf};

    ghost Value = { ColumnsView };

    ghost view = { λ l. l.entries };

    ghost invariant = { λ l. IsLeaf l.first l.last l.entries.entries l.gap };
}

// What a `Node` is asked, a leaf asks of its columns, of its first or its last entry, or of its spare lists. These know nothing of nodes,
// and are proved without a leaf.
impl<L: Label> Node for Leaf<L> {
    type Position = usize;

    type Spares = SpareLists<L>;

    ghost entries = { λ l. l.entries };

    ghost size = { λ l. length l.entries };

    ghost nodes = { λ l. 1 + halves_more l.room };

    ghost long = { long_leaves };

    ghost Fits = { Fits L.is_by_key L.is_narrow };

    ghost IsNeat = { λ l. Unit {0} };

    ghost IsPosition = { λ l position. position ≤ length l.entries };

    ghost IsEntry = { λ l position. (position < length l.entries) × (position < 128) };

    ghost rank = { λ l position. position };

    ghost HasLeft = { λ spares k. k ≤ spares.large };

    ghost HasPlaces = { HaveListPlaces };

    ghost HasReserve = { λ spares. 0 < spares.large };

    fn new(alloc: Global) -> Result<Self, AllocError> {
        let entries = EntryColumns::new(alloc, HALF)?;
        let tid = Tid { page: 0, slot: 0 };
        let none = Entry {
            value: 0,
            key: 0,
            tid,
        };
        Ok(Leaf {
            first: none,
            last: none,
            entries,
            gap: all_places(),
            spread: 0,
        })
    }

    fn clear(&mut self) {
        self.entries.clear();
        self.gap = all_places();
    }

    fn len(&self) -> usize {
        self.entries.len()
    }

    fn begins_after(&self, sought: &Entry) -> bool {
        is_before(sought, &self.first)
    }

    fn search(&self, sought: &Entry) -> Result<usize, usize> {
        let guess = guess(sought, &self.first, self.spread, self.entries.len());
        search(&self.entries, sought, guess)
    }

    #[inline(always)]
    fn stands_at(&self, sought: &Entry, position: usize) -> bool {
        stands_in(&self.entries, &self.last, sought, position)
    }

    fn first() -> usize {
        0
    }

    fn behind(position: usize) -> usize {
        // no leaf has more than 128 entries
        position.saturating_add(1)
    }

    #[inline(always)]
    fn entry_at(&self, position: usize) -> Option<Entry> {
        self.entries.get(position)
    }

    #[inline(always)]
    fn look_at(&self, position: usize) -> Option<(Entry, bool)> {
        look_at(&self.entries, position)
    }

    fn gap_near(&self, sought: &Entry, near: usize, is_last: bool) -> Option<usize> {
        gap_near(&self.entries, sought, near, is_last)
    }

    fn split(&mut self, upper: &mut Self, position: usize) -> Half<usize> {
        // keys that come in order go to the upper half: so it keeps the places for more
        mem::swap(&mut self.entries, &mut upper.entries);
        let kept = kept_with(position);
        upper.entries.move_before(kept, &mut self.entries);
        upper.first = first_or(&upper.entries, self.first);
        self.first = first_or(&self.entries, self.first);
        upper.last = last_or(&upper.entries, self.last);
        self.last = last_or(&self.entries, self.last);
        upper.gap = self.gap;
        upper.spread = spread_between(&upper.first, &upper.last);
        self.spread = spread_between(&self.first, &self.last);
        if position < HALF {
            Half::Lower(position)
        } else {
            Half::Upper(position - HALF)
        }
    }

    #[inline(always)]
    fn insert(
        &mut self,
        spares: &mut SpareLists<L>,
        position: usize,
        entry: Entry,
    ) -> Result<(), AllocError> {
        let count = self.entries.len();
        // with any other number there is a place
        if count % HALF == 0 {
            make_place(&mut self.entries, spares)?;
        }
        self.entries.insert(position, entry);
        self.first = first_with(self.first, position, entry);
        self.last = last_with(self.last, count, position, entry);
        self.gap = without(self.gap, entry.tid);
        self.spread = spread_between(&self.first, &self.last);
        Ok(())
    }

    #[inline(always)]
    fn sweep_from(
        &mut self,
        spares: &mut SpareLists<L>,
        position: usize,
        dead: &DeadSet,
    ) -> Option<Swept<usize>> {
        let count = self.entries.len();
        if position >= count {
            return None;
        }
        let last = self.last;
        if holds(self.gap, dead) {
            return Some(none_removed(last, count));
        }
        self.gap = self.entries.gap_behind(dead.as_slice());
        if !self.entries.remove_dead(position, dead) {
            return Some(none_removed(last, count));
        }
        spares.take_back(&mut self.entries);
        self.first = first_or(&self.entries, self.first);
        self.last = last_or(&self.entries, last);
        self.spread = spread_between(&self.first, &self.last);
        let removed = (count - self.entries.len()) as u64;
        Some(Swept {
            last,
            at: self.entries.len().saturating_sub(1),
            removed,
            more: false,
        })
    }

    #[inline(always)]
    fn touch(&self, dead: &DeadSet) -> u32 {
        if holds(self.gap, dead) {
            return 0;
        }
        self.entries.touch()
    }

    #[inline(always)]
    fn take_touched(spares: &mut SpareLists<L>, touched: u32) {
        spares.note(touched);
    }

    fn no_spares(alloc: Global) -> SpareLists<L> {
        SpareLists::new(alloc)
    }

    fn has_left(spares: &SpareLists<L>, count: usize) -> bool {
        count <= spares.len()
    }

    fn add_spares(spares: &mut SpareLists<L>, count: usize) -> Result<(), AllocError> {
        spares.add(count)
    }

    ghost none = { λ l none. nil_from_length l.entries none };

    ghost some = { λ l neat some. some };

    ghost many = { λ l neat. omega arith };

    ghost itself = { λ l. omega arith };

    ghost halves = { λ l. omega arith };

    ghost inside = { λ l position entry. entry.0 };

    ghost before = { λ l position entry. omega (arith, entry.0) };

    ghost within = { λ l position within. within };

    ghost fewer = { λ spares k enough. omega (arith, enough) };
}

/// What a sweep did that removed none of so many entries.
#[inline(always)]
fn none_removed(last: Entry, count: usize) -> Swept<usize>
    ensures last { result.last ≡ last }
    ensures removed { result.removed ≡ 0 }
    ensures more { result.more ≡ false }
{
    Swept {
        last,
        at: count.saturating_sub(1),
        removed: 0,
        more: false,
    }
}

/// Sees to a place for one more entry. With the first of all a large list is set aside, for the leaf that outgrows its own next.
#[inline(never)]
fn make_place<L: Label>(
    entries: &mut EntryColumns<L>,
    spares: &mut SpareLists<L>,
) -> Result<(), AllocError>
    requires few { length entries.old.entries < MOST_PARTS }
    requires none { (length entries.old.entries ≡ 0) ⊎ (HALF ≤ length entries.old.entries) }
    ensures entries { entries.new.entries ≡ entries.old.entries }
    ensures place { OnOk result
        (HALF ≤ length entries.old.entries → MOST_PARTS ≤ entries.new.room) }
    ensures kept { entries.old.room ≤ entries.new.room }
    ensures large { spares.old.large ≤ spares.new.large + 1 }
    ensures taken { (spares.old.large ≤ spares.new.large) ⊎ Outgrows entries.old entries.new }
    ensures places { HaveListPlaces spares.old → HaveListPlaces spares.new }
    ensures first { OnOk result
        (length entries.old.entries ≡ 0 → HaveListPlaces spares.new × (0 < spares.new.large)) }
    ensures same { OnErr result (spares.old.large ≤ spares.new.large) }
    ensures refused { OnErr result (spares.old.large ≡ 0) }
    ensures full { OnErr result
        ((length entries.old.entries ≡ 0) ⊎ IsSmallAndFull entries.old) }
{
    if entries.len() == 0 {
        return spares.add(1);
    }
    if entries.room() >= MOST_PARTS {
        return Ok(());
    }
    spares.widen(entries)
}

/// How many entries a full leaf keeps when it is split for one more at this position. The first 64 of all stay, be the new one among
/// them or not.
fn kept_with(position: usize) -> usize
    ensures among { position < HALF → result + 1 ≡ HALF }
    ensures behind { HALF ≤ position → result ≡ HALF }
{
    if position < HALF { HALF - 1 } else { HALF }
}

/// The first entry where one comes to this place: that one, or the first until then.
fn first_with(first: Entry, place: usize, entry: Entry) -> Entry
    ensures front { place ≡ 0 → result ≡ entry }
    ensures behind { 0 < place → result ≡ first }
{
    if place == 0 { entry } else { first }
}

/// The last of so many entries where one comes to this place: that one, or the last until then.
fn last_with(last: Entry, count: usize, place: usize, entry: Entry) -> Entry
    ensures end { place ≡ count → result ≡ entry }
    ensures before { place < count → result ≡ last }
{
    if place == count { entry } else { last }
}

/// How far a value is behind another, where that is less than 2^64.
fn spread_between(first: &Entry, last: &Entry) -> u64 {
    u64::try_from(last.value.wrapping_sub(first.value)).unwrap_or(0)
}

/// Where the entry would stand among so many if their values were evenly spread. It is no more than a hint.
fn guess(sought: &Entry, first: &Entry, spread: u64, count: usize) -> usize {
    let last = count.saturating_sub(1);
    match u64::try_from(sought.value.wrapping_sub(first.value)) {
        Ok(ahead) if ahead < spread => (ahead.saturating_mul(last as u64) / spread) as usize,
        Ok(_) => last,
        Err(_) => 0,
    }
}

/// Where the entry stands among these, or where it would. It looks at the guess first, and then beside what it saw, four times
/// as far each time, but never farther than halving would.
fn search<L: Label>(entries: &EntryColumns<L>, sought: &Entry, guess: usize) -> Result<usize, usize>
    requires { IsAscending entries.now.entries }
    ensures found { IfOk result (IsAt entries.now.entries sought.now) }
    ensures absent { IfErr result (IsGapFor entries.now.entries sought.now) }
{
    let mut low = 0;
    let mut high = entries.len();
    let mut place = guess.min(high.saturating_sub(1));
    let mut reach = 0;
    while low < high {
        if entries.is_before(place, sought) {
            low = place + 1;
            place = low + ((high - low) / 2).min(reach);
        } else {
            high = place;
            place = high.saturating_sub(((high - low) / 2).min(reach) + 1);
        }
        reach = reach.wrapping_mul(4).wrapping_add(3);
    }
    if is_at(entries, sought, low) {
        Ok(low)
    } else {
        Err(low)
    }
}

/// Whether this entry stands at this place.
fn is_at<L: Label>(entries: &EntryColumns<L>, sought: &Entry, place: usize) -> bool
    ensures { IsTrue result ↔ IsAt entries.now.entries sought.now place }
{
    match entries.get(place) {
        Some(entry) => compare(&entry, sought).is_eq(),
        None => false,
    }
}

/// Whether this entry stands at this place, where the last one is known.
#[inline(always)]
fn stands_in<L: Label>(
    entries: &EntryColumns<L>,
    last: &Entry,
    sought: &Entry,
    place: usize,
) -> bool
    requires { IsLast last.now entries.now.entries }
    ensures there { IsTrue result ↔ IsAt entries.now.entries sought.now place }
    ensures few { IsTrue result → place < MOST_PARTS }
{
    if place >= entries.len() {
        return false;
    }
    is_same(&there(entries, last, place), sought)
}

/// The entry at this place, where the last one is known. So a sweep goes on from it without a look at the others.
#[inline(always)]
fn there<L: Label>(entries: &EntryColumns<L>, last: &Entry, place: usize) -> Entry
    requires in_range { place < length entries.now.entries }
    requires last { IsLast last.now entries.now.entries }
    ensures { slice_get entries.now.entries place ≡ Some result }
{
    let count = entries.len();
    if place + 1 == count {
        *last
    } else {
        entries.at(place)
    }
}

/// The entry at this place, if there is one; and whether another of these stands behind it, of another value or another key.
#[inline(always)]
fn look_at<L: Label>(entries: &EntryColumns<L>, place: usize) -> Option<(Entry, bool)>
    ensures entry { option_map (λ found. found.0) result ≡ slice_get entries.now.entries place }
    ensures end { IfSome result
        (λ found. IsTrue found.1 → IsEndAt entries.now.entries found.0 place) }
{
    match entries.get(place) {
        Some(entry) => Some((entry, is_end(entries, entry, place))),
        None => None,
    }
}

/// Whether another of these entries stands behind this place, of another value or another key than this one.
#[inline(always)]
fn is_end<L: Label>(entries: &EntryColumns<L>, entry: Entry, place: usize) -> bool
    ensures { IsTrue result → IsEndAt entries.now.entries entry place }
{
    let behind = place.saturating_add(1);
    if behind >= entries.len() {
        return false;
    }
    let next = entries.at(behind);
    next.value != entry.value || next.key != entry.key
}

/// Where the entry goes, if that is right before or right behind this place, and between two of these entries; or at the end of the
/// last leaf.
fn gap_near<L: Label>(
    entries: &EntryColumns<L>,
    sought: &Entry,
    near: usize,
    is_last: bool,
) -> Option<usize>
    requires { IsAscending entries.now.entries }
    ensures in_range { IfSome result (λ place. place ≤ length entries.now.entries) }
    ensures behind { IfSome result (GoesBehind entries.now.entries sought.now) }
    ensures before { IfSome result (GoesBefore entries.now.entries sought.now is_last) }
{
    // behind what stands there, or before it
    let next = near.saturating_add(1);
    let place = if goes_behind(entries, sought, next) {
        next
    } else if goes_behind(entries, sought, near) {
        near
    } else {
        return None;
    };
    if goes_before(entries, sought, place, is_last) {
        Some(place)
    } else {
        None
    }
}

/// Whether an entry stands right before this place, and before the sought one.
fn goes_behind<L: Label>(entries: &EntryColumns<L>, sought: &Entry, place: usize) -> bool
    requires { IsAscending entries.now.entries }
    ensures { IsTrue result → GoesBehind entries.now.entries sought.now place }
{
    if place == 0 {
        return false;
    }
    match entries.get(place - 1) {
        Some(before) => is_before(&before, sought),
        None => false,
    }
}

/// Whether the sought entry comes before the one at this place; or whether the leaf is the last, where none is there.
fn goes_before<L: Label>(
    entries: &EntryColumns<L>,
    sought: &Entry,
    place: usize,
    is_last: bool,
) -> bool
    requires { IsAscending entries.now.entries }
    ensures { IsTrue result → GoesBefore entries.now.entries sought.now is_last place }
{
    match entries.get(place) {
        Some(behind) => is_before(sought, &behind),
        None => is_last,
    }
}

/// The first of these entries, or another where there is none.
fn first_or<L: Label>(entries: &EntryColumns<L>, other: Entry) -> Entry
    ensures { IsFirst result entries.now.entries }
{
    match entries.get(0) {
        Some(first) => first,
        None => other,
    }
}

/// The last of these entries, or another where there is none.
fn last_or<L: Label>(entries: &EntryColumns<L>, other: Entry) -> Entry
    ensures { IsLast result entries.now.entries }
{
    match entries.get(entries.len().saturating_sub(1)) {
        Some(last) => last,
        None => other,
    }
}
