//! Columns of entries.

ghost use Rattle.std.specs.Prelude.{◌≡◌, ◌⊎◌, ◌<◌, ◌≤◌, ◌+◌, ◌-◌, ◌*◌, ◌%◌, ◌^◌, ◌++◌, min, [], ◌↔◌, length, take, drop, IfOk, IfSome, IsTrue, Some, false, slice_get, vec_len, vec_capacity, Contains};
ghost use Rattle.std.specs.List.{All, HoldsAt, insert, remove, filter};
ghost use Rattle.std.specs.Ordering.{is_lt};
ghost use Rattle.index_entries.specs.Order.{comparison};
ghost use Rattle.index_entries.specs.Lists.{stays};
ghost use Rattle.dead_places.specs.Places.{AreAscending};
ghost use Rattle.entry_columns.specs.Fits.{Fits};
ghost use Rattle.entry_columns.specs.Columns.{entries_with, long};
ghost use Rattle.entry_columns.specs.Gaps.{AreOutside, AreNumberedWithin, AreOutsideFrom};
ghost use Rattle.entry_columns.specs.declared.short_tid.ShortTid.{ShortTid as Short};

use crate::gap::{Gap, between};
use crate::label::Label;
use crate::short_tid::{PAGES, ShortTid};
use dead_places::DeadSet;
use index_entries::{Entry, HALF, MOST_PARTS, compare};
use std::alloc::{AllocError, Global};
use std::marker::Model;
use xid_circle::Tid;

/// At most 128 entries: a column of their labels, and one of their places. There is room in memory for 64 of them, or for all.
#[derive(Debug, Drop)]
pub struct EntryColumns<L: Label> {
    labels: Vec<L>,
    places: Vec<ShortTid>,
}

impl<L: Label> Model for EntryColumns<L> {
    ghost use Rattle.std.specs.Prelude.{length, min, vec_capacity};
    ghost use Rattle.entry_columns.specs.Columns.{ColumnsView, entries_with, AreColumns};

    ghost Value = { ColumnsView };

    ghost view = { λ e. record {
      entries = entries_with L.value_of L.key_of e.labels.items e.places.items;
      room = min (vec_capacity e.labels) (vec_capacity e.places);
    } };

    ghost invariant = { λ e. AreColumns (length e.labels.items) (length e.places.items)
        (vec_capacity e.labels) (vec_capacity e.places) };
}

impl<L: Label> EntryColumns<L> {
    /// No entries, and room for so many.
    pub fn new(alloc: Global, room: usize) -> Result<Self, AllocError>
        requires { HALF ≤ room }
        ensures none { IfOk result (λ columns. columns.entries ≡ []) }
        ensures room { IfOk result (λ columns. columns.room ≡ room) }
    {
        let labels = Vec::with_capacity(alloc, room)?;
        let places = Vec::with_capacity(alloc, room)?;
        Ok(EntryColumns { labels, places })
    }

    /// Takes all entries out.
    pub fn clear(&mut self)
        ensures none { self.new.entries ≡ [] }
        ensures room { self.old.room ≤ self.new.room }
    {
        self.labels.clear();
        self.places.clear();
    }

    /// The number of entries. (The columns are private to this type.)
    #[inline(always)]
    pub fn len(&self) -> usize
        ensures value { result ≡ length self.now.entries }
        ensures limit { result ≤ MOST_PARTS }
        ensures large { HALF < result → MOST_PARTS ≤ self.now.room }
    {
        self.places.len()
    }

    /// For so many entries there are places in memory.
    pub fn room(&self) -> usize
        ensures { result ≡ self.now.room }
    {
        self.labels.capacity().min(self.places.capacity())
    }

    /// The entry at this place.
    #[inline(always)]
    pub fn at(&self, place: usize) -> Entry
        requires { place < length self.now.entries }
        ensures { slice_get self.now.entries place ≡ Some result }
    {
        let label = self.labels[place];
        Entry {
            value: label.value(),
            key: label.key(),
            tid: self.places[place].long(),
        }
    }

    /// The entry at this place, if there is one.
    #[inline(always)]
    pub fn get(&self, place: usize) -> Option<Entry>
        ensures { result ≡ slice_get self.now.entries place }
    {
        if place < self.len() {
            Some(self.at(place))
        } else {
            None
        }
    }

    /// Whether the entry at this place comes before another.
    #[inline(always)]
    pub fn is_before(&self, place: usize, sought: &Entry) -> bool
        requires { place < length self.now.entries }
        ensures { HoldsAt (λ entry. result ≡ is_lt (comparison entry sought.now)) self.now.entries
            place }
    {
        // most are told apart by their values, many by the first test, and then no place is looked at
        let value = self.labels[place].value();
        if value < sought.value {
            return true;
        }
        if sought.value < value {
            return false;
        }
        compare(&self.at(place), sought).is_lt()
    }

    /// Puts an entry before those from this place on.
    pub fn insert(&mut self, place: usize, entry: Entry)
        requires in_range { place ≤ length self.old.entries }
        requires few { length self.old.entries < MOST_PARTS }
        requires room { HALF ≤ length self.old.entries → MOST_PARTS ≤ self.old.room }
        requires fits { Fits L.is_by_key L.is_narrow entry }
        ensures entries { self.new.entries ≡ insert self.old.entries place entry }
        ensures room { self.old.room ≤ self.new.room }
    {
        put(&mut self.labels, place, L::new(entry.value, entry.key));
        put(&mut self.places, place, ShortTid::new(entry.tid));
    }

    /// Moves the entries before this place to columns, in the place of all there.
    pub fn move_before(&mut self, place: usize, lower: &mut Self)
        requires in_range { place ≤ length self.old.entries }
        requires room { HALF < place → MOST_PARTS ≤ lower.old.room }
        ensures moved { lower.new.entries ≡ take place self.old.entries }
        ensures stay { self.new.entries ≡ drop place self.old.entries }
        ensures room { self.old.room ≤ self.new.room }
        ensures room_too { lower.old.room ≤ lower.new.room }
    {
        move_part(&mut self.labels, place, &mut lower.labels);
        move_part(&mut self.places, place, &mut lower.places);
    }

    /// The index, from this one on, of the first entry that leads to a dead place; the end, where none does.
    fn next_dead(&self, from: usize, dead: &DeadSet) -> usize
        requires { from ≤ length self.now.entries }
        ensures in_range { result ≤ length self.now.entries }
        ensures dead { IfSome (slice_get self.now.entries result) (λ e. Contains dead.now e.tid) }
        ensures kept { take result self.now.entries
            ++ filter (stays dead.now) (drop result self.now.entries)
            ≡ take from self.now.entries
            ++ filter (stays dead.now) (drop from self.now.entries) }
    {
        let span = span_of(dead);
        let mut place = next_within(&self.places, from, span);
        while place < self.places.len() {
            if dead.contains(self.places[place].long()) {
                return place;
            }
            place = next_within(&self.places, place + 1, span);
        }
        place
    }

    /// Places to which no entry leads: those from the last page of these on, up to the page of the second that one leads to, but for the
    /// first.
    #[inline(never)]
    pub fn gap_behind(&self, tids: &[Tid]) -> Gap
        ensures { AreOutside result self.now.entries }
    {
        let from = page_of_last(tids);
        let least = u32::from(from) * PAGES;
        let ahead = least_ahead(&self.places, least);
        let first = least.saturating_add(ahead);
        let behind = first.saturating_add(1);
        let more = least_ahead(&self.places, behind);
        let second = behind.saturating_add(more);
        between(from, (second / PAGES) as u16, first)
    }

    /// Reads labels and places, so that the lines of memory that they stand in are near.
    #[inline(always)]
    pub fn touch(&self) -> u32 {
        touched_labels(&self.labels).wrapping_add(touched_places(&self.places))
    }

    /// Removes the entries to dead places from this place on, and moves those behind them up. Says whether there were any.
    #[inline(never)]
    pub fn remove_dead(&mut self, from: usize, dead: &DeadSet) -> bool
        requires { from ≤ length self.old.entries }
        ensures entries { self.new.entries
            ≡ take from self.old.entries
            ++ filter (stays dead.now) (drop from self.old.entries) }
        ensures none { result ≡ false → self.new ≡ self.old }
        ensures some { IsTrue result → length self.new.entries < length self.old.entries }
        ensures shorter { length self.new.entries ≤ length self.old.entries }
        ensures room { self.old.room ≤ self.new.room }
    {
        let first = self.next_dead(from, dead);
        if first >= self.len() {
            return false;
        }
        // mostly it is the only one
        self.take_out(first);
        let next = self.next_dead(first, dead);
        if next < self.len() {
            self.remove_more(next, dead);
        }
        true
    }

    /// Takes the entry at this place out, and moves those behind it up.
    fn take_out(&mut self, place: usize)
        requires { place < length self.old.entries }
        ensures entries { self.new.entries ≡ remove self.old.entries place }
        ensures room { self.old.room ≤ self.new.room }
    {
        take_one(&mut self.labels, place);
        take_one(&mut self.places, place);
    }

    /// Removes the entries to dead places from this place on, one after another.
    fn remove_more(&mut self, from: usize, dead: &DeadSet)
        requires { from ≤ length self.old.entries }
        ensures entries { self.new.entries
            ≡ take from self.old.entries
            ++ filter (stays dead.now) (drop from self.old.entries) }
        ensures shorter { length self.new.entries ≤ length self.old.entries }
        ensures room { self.old.room ≤ self.new.room }
    {
        let span = span_of(dead);
        let mut kept = from;
        for place in from..self.places.len() {
            let tid = self.places[place];
            if !is_dead(dead, span, tid) {
                self.labels[kept] = self.labels[place];
                self.places[kept] = tid;
                kept += 1;
            }
        }
        self.labels.truncate(kept);
        self.places.truncate(kept);
    }
}

/// Whether an entry can be among such columns.
pub fn fits<L: Label>(entry: &Entry) -> bool
    ensures { IsTrue result ↔ Fits L.is_by_key L.is_narrow entry.now }
{
    entry.tid.page < PAGES && L::fits(entry.value, entry.key)
}

/// Puts an item before those from this place on. There is room for it in memory.
#[inline(always)]
fn put<T: Copy>(items: &mut Vec<T>, place: usize, item: T)
    requires in_range { place ≤ vec_len items.old }
    requires room { vec_len items.old < vec_capacity items.old }
    ensures items { items.new.items ≡ insert items.old.items place item }
    ensures capacity { vec_capacity items.old ≤ vec_capacity items.new }
{
    // behind all others most of the time, since keys ascend
    if place == items.len() {
        items.push_reserved(item);
        return;
    }
    // never refused, since there is room
    let _done = items.insert(place, item);
}

/// Takes the item at this place out.
#[inline(always)]
fn take_one<T: Copy>(items: &mut Vec<T>, place: usize)
    requires { place < vec_len items.old }
    ensures items { items.new.items ≡ remove items.old.items place }
    ensures capacity { vec_capacity items.old ≤ vec_capacity items.new }
{
    items.copy_within(place + 1.., place);
    items.truncate(items.len() - 1);
}

/// Moves the items before this place to another list, in the place of all there. There is room for them in memory.
fn move_part<T: Copy>(items: &mut Vec<T>, place: usize, lower: &mut Vec<T>)
    requires in_range { place ≤ vec_len items.old }
    requires room { place ≤ vec_capacity lower.old }
    ensures moved { lower.new.items ≡ take place items.old.items }
    ensures stay { items.new.items ≡ drop place items.old.items }
    ensures capacity { vec_capacity items.old ≤ vec_capacity items.new }
    ensures capacity_too { vec_capacity lower.old ≤ vec_capacity lower.new }
{
    lower.clear();
    // never refused, since there is room
    let _done = lower.extend_from_slice(&items[..place]);
    items.copy_within(place.., 0);
    items.truncate(items.len() - place);
}

/// The page of the last of these places, or another where it is not told apart.
fn page_of_last(tids: &[Tid]) -> u16 {
    match tids.last() {
        Some(last) => u16::try_from(last.page).unwrap_or(0),
        None => 0,
    }
}

/// How far the first of these numbers is ahead of this one, at least. Those before it count as far ahead, so several places take one test.
fn least_ahead(places: &[ShortTid], from: u32) -> u32
    ensures numbers { All (λ p. p.number < 2 ^ 32) places.now }
    ensures ahead { All (λ p. from ≤ p.number → from + result ≤ p.number) places.now }
{
    let shift = from.wrapping_add(HALF_WAY);
    let mut ahead = HALF_WAY - 1;
    for place in 0..places.len() {
        let number = places[place].number();
        ahead = signed_min(ahead, number.wrapping_sub(shift));
    }
    ahead.wrapping_add(HALF_WAY)
}

/// Half of the numbers of 32 bits are before this one.
const HALF_WAY: u32 = 2_147_483_648;

/// The lesser of two numbers from which [`HALF_WAY`] was taken. As signed numbers several are compared in few instructions, where a
/// processor has none for unsigned ones.
#[inline(always)]
fn signed_min(a: u32, b: u32) -> u32
    ensures one { (result ≡ a) ⊎ (result ≡ b) }
    ensures least { (result + HALF_WAY) % 2 ^ 32 ≤ (a + HALF_WAY) % 2 ^ 32 }
    ensures least_too { (result + HALF_WAY) % 2 ^ 32 ≤ (b + HALF_WAY) % 2 ^ 32 }
{
    a.cast_signed().min(b.cast_signed()).cast_unsigned()
}

/// The index, from this one on, of the first of these places whose number lies in the span; the end, where there is none.
fn next_within(places: &[ShortTid], from: usize, span: Span) -> usize
    requires { from ≤ length places.now }
    ensures from { from ≤ result }
    ensures end { result ≤ length places.now }
    ensures outside { AreOutsideFrom places.now from result span.least span.more }
{
    let mut place = past_eights(places, from, span);
    while place < places.len() && !is_within(span, places[place]) {
        place += 1;
    }
    place
}

/// An index up to which no number of these places lies in the span, from this one on: eight places are passed over at once.
fn past_eights(places: &[ShortTid], from: usize, span: Span) -> usize
    requires { from ≤ length places.now }
    ensures from { from ≤ result }
    ensures end { result ≤ length places.now }
    ensures outside { AreOutsideFrom places.now from result span.least span.more }
{
    let mut place = from;
    while places.len() - place >= 8 {
        if least_ahead(&places[place..place + 8], span.least) <= span.more {
            break;
        }
        place += 8;
    }
    place
}

/// Numbers from one on, up to so many behind it.
#[derive(Clone, Copy, Debug)]
pub(crate) struct Span {
    least: u32,
    more: u32,
}

/// The numbers from that of the first of these places to that of the last.
#[inline(always)]
pub(crate) fn span_of(dead: &DeadSet) -> Span
    ensures { AreNumberedWithin dead.now result.least result.more }
{
    dead.fact_ascending();
    let least = least_number(dead.as_slice());
    let greatest = greatest_number(dead.as_slice());
    Span {
        least,
        more: greatest.wrapping_sub(least),
    }
}

/// The number of the first of these places.
#[inline(always)]
fn least_number(dead: &[Tid]) -> u32
    requires { AreAscending dead.now }
    ensures { (p : Short) → p.number < 2 ^ 32 → Contains dead.now (long p) → result ≤ p.number }
{
    match dead.first() {
        Some(first) => number_of(first),
        None => 0,
    }
}

/// The number of the last of these places.
#[inline(always)]
fn greatest_number(dead: &[Tid]) -> u32
    requires { AreAscending dead.now }
    ensures { (p : Short) → p.number < 2 ^ 32 → Contains dead.now (long p) → p.number ≤ result }
{
    match dead.last() {
        Some(last) => number_of(last),
        None => 0,
    }
}

/// The number of this place; the greatest of all, where it is on none of the pages that are told apart.
#[inline(always)]
fn number_of(tid: &Tid) -> u32
    ensures value { result ≡ min (tid.now.page * 65536 + tid.now.slot) (2 ^ 32 - 1) }
    ensures slot { tid.now.slot < 65536 }
{
    let slot = tid.slot;
    let number = u64::from(tid.page) * 65_536 + u64::from(slot);
    u32::try_from(number).unwrap_or(u32::MAX)
}

/// Whether the number of this place is one of these.
#[inline(always)]
fn is_within(span: Span, place: ShortTid) -> bool
    ensures number { place.number < 2 ^ 32 }
    ensures outside { result ≡ false → span.least ≤ place.number
        → span.least + span.more < place.number }
{
    place.number().wrapping_sub(span.least) <= span.more
}

/// Whether this place is dead. Most are told by their numbers.
#[inline(always)]
pub(crate) fn is_dead(dead: &DeadSet, span: Span, place: ShortTid) -> bool
    requires { AreNumberedWithin dead.now span.least span.more }
    ensures { IsTrue result ↔ Contains dead.now (long place) }
{
    is_within(span, place) && dead.contains(place.long())
}

/// Reads each eighth of these labels, and the last. Eight of an index by key stand in one line of memory, and of another in two, which a
/// processor reads together.
#[inline(always)]
fn touched_labels<L: Label>(labels: &[L]) -> u32 {
    let mut touched = match labels.last() {
        Some(last) => last.key(),
        None => 0,
    };
    for eighth in 0..labels.len() / 8 {
        touched = touched.wrapping_add(labels[eighth * 8].key());
    }
    (touched % 65_536) as u32
}

/// Reads each sixteenth of these places, and the last: sixteen stand in one line of memory.
#[inline(always)]
fn touched_places(places: &[ShortTid]) -> u32 {
    let mut touched = match places.last() {
        Some(last) => last.number(),
        None => 0,
    };
    for line in 0..places.len() / 16 {
        touched = touched.wrapping_add(places[line * 16].number());
    }
    touched
}
