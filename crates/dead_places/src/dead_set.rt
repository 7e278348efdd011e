//! Sets of dead places.

ghost use Rattle.std.specs.Prelude.{◌≡◌, ◌==◌, ◌<◌, ◌≤◌, ◌+◌, ◌-◌, ◌++◌, ◌∷◌, ◌↔◌, [], length, IfOk, IfErr, IfSome, IfNone, IsTrue, Some, slice_get, Contains};
ghost use Rattle.std.specs.Bool.{OnTrue};
ghost use Rattle.std.specs.List.{All};
ghost use Rattle.arrayvec.specs.ArrayVec.{array_vec_len};
ghost use Rattle.xid_circle.specs.declared.Tid.{Tid as Place};
ghost use Rattle.dead_places.specs.Places.{PlacePrecedes, AreAscending, AddsPlace, IsRoomFor};

use crate::marks::{MARKS, note, place_mark};
use crate::order::compare_places;
use arrayvec::ArrayVec;
use std::cmp::Ordering;
use std::marker::Model;
use xid_circle::Tid;

/// How many places a set may have.
pub const MOST_PLACES: usize = 4096;

/// A set of at most 4096 dead places, in ascending order: by page, then slot. It takes no memory beyond its own.
#[derive(Debug, Drop)]
pub struct DeadSet {
    tids: ArrayVec<Tid, MOST_PLACES>,
    // For each mark 0 where no place has it, else a hint: how many places there were once one of this mark was added. Where they come in
    // their order, that is its number, counted from 1.
    marks: [u16; MARKS],
}

impl Model for DeadSet {
    ghost use Rattle.std.specs.Prelude.{List};
    ghost use Rattle.xid_circle.specs.declared.Tid.{Tid as Seen};
    ghost use Rattle.dead_places.specs.Places.{AreAscending};
    ghost use Rattle.dead_places.specs.Marks.{HaveMarks};

    ghost Value = { List Seen };

    ghost view = { λ s. s.tids.items };

    ghost invariant = { λ s. AreAscending s.tids.items × HaveMarks s.tids.items s.marks };
}

impl DeadSet {
    /// A set without places.
    pub fn new() -> Self
        ensures { result ≡ [] }
    {
        DeadSet {
            tids: ArrayVec::new(),
            marks: [0; MARKS],
        }
    }

    /// The number of places. (The list is private to this type, here and below.)
    pub fn len(&self) -> usize
        ensures value { result ≡ length self.now }
        ensures limit { result ≤ MOST_PLACES }
    {
        self.tids.len()
    }

    /// Whether there is no place.
    pub fn is_empty(&self) -> bool
        ensures { result ≡ (length self.now == 0) }
    {
        self.tids.is_empty()
    }

    /// How many more places it takes.
    pub fn room(&self) -> usize
        ensures { result + length self.now ≡ MOST_PLACES }
    {
        self.tids.remaining_capacity()
    }

    /// Whether it takes no more places.
    pub fn is_full(&self) -> bool
        ensures value { result ≡ (length self.now == MOST_PLACES) }
        ensures limit { length self.now ≤ MOST_PLACES }
    {
        self.tids.is_full()
    }

    /// That the places are in ascending order, each once. It does nothing; its contract is the fact.
    pub fn fact_ascending(&self)
        ensures { AreAscending self.now }
    {
        let _count = self.tids.len();
    }

    /// The place of this number in the order, counted from 0, if there is one.
    pub fn get(&self, number: usize) -> Option<Tid>
        ensures { result ≡ slice_get self.now number }
    {
        place_at(self.tids.as_slice(), number)
    }

    /// The greatest of the places, if there is one.
    pub fn greatest(&self) -> Option<Tid>
        ensures { result ≡ slice_get self.now (length self.now - 1) }
    {
        place_at(self.tids.as_slice(), self.tids.len().saturating_sub(1))
    }

    /// Whether this place is among them. Where no other place has its mark and they came in their order, that takes two looks.
    #[inline(always)]
    pub fn contains(&self, tid: Tid) -> bool
        ensures { IsTrue result ↔ Contains self.now tid }
    {
        let hint = self.marks[place_mark(tid)];
        if hint == 0 {
            return false;
        }
        is_among(self.tids.as_slice(), tid, hint)
    }

    /// Adds a place. One that is there already stays there once. It takes constant time where the place is above all others. (The list is
    /// private to this type.)
    pub fn insert(&mut self, tid: Tid)
        requires { length self.old < MOST_PLACES }
        ensures adds { AddsPlace self.old self.new tid }
        ensures last { All (λ t. PlacePrecedes t tid) self.old → self.new ≡ self.old ++ tid ∷ [] }
    {
        put(&mut self.tids, tid);
        note(&mut self.marks, tid, self.tids.len() as u16);
    }

    /// Takes all places out.
    pub fn clear(&mut self)
        ensures { self.new ≡ [] }
    {
        self.tids.clear();
        self.marks = [0; MARKS];
    }

    /// The places in their order.
    pub fn as_slice(&self) -> &[Tid]
        ensures { result.now ≡ self.now }
    {
        self.tids.as_slice()
    }
}

/// The place of this number, if there is one. (The set asks it of its list, by a number and for the last.)
fn place_at(tids: &[Tid], number: usize) -> Option<Tid>
    ensures { result ≡ slice_get tids.now number }
{
    tids.get(number).copied()
}

/// The number of this place, or the one that it would have, by halving.
fn search(tids: &[Tid], sought: &Tid) -> Result<usize, usize>
    requires { AreAscending tids.now }
    ensures found { IfOk result (λ i. slice_get tids.now i ≡ Some sought.now) }
    ensures absent { IfErr result (IsRoomFor tids.now sought.now) }
{
    let mut low = 0;
    let mut high = tids.len();
    while low < high {
        let middle = low + (high - low) / 2;
        match compare_places(&tids[middle], sought) {
            Ordering::Equal => return Ok(middle),
            Ordering::Less => low = middle + 1,
            Ordering::Greater => high = middle,
        }
    }
    Err(low)
}

/// Whether the place is one of these, by halving. (It stays out of line: a look that finds the mark at once is short.)
#[inline(never)]
fn is_found(tids: &[Tid], tid: Tid) -> bool
    requires { AreAscending tids.now }
    ensures { IsTrue result ↔ Contains tids.now tid }
{
    search(tids, &tid).is_ok()
}

/// Whether the place is the one of this number.
#[inline(always)]
fn stands_at(tids: &[Tid], number: usize, tid: Tid) -> bool
    ensures { OnTrue result (Contains tids.now tid) }
{
    number < tids.len() && tids[number] == tid
}

/// Whether the place is one of these. It is looked for where the hint says, and then by halving.
#[inline(always)]
fn is_among(tids: &[Tid], tid: Tid, hint: u16) -> bool
    requires { AreAscending tids.now }
    ensures { IsTrue result ↔ Contains tids.now tid }
{
    stands_at(tids, hint.wrapping_sub(1) as usize, tid) || is_found(tids, tid)
}

/// Whether the place is above all these.
fn is_above(tids: &[Tid], tid: &Tid) -> bool
    requires { AreAscending tids.now }
    ensures { OnTrue result (IsRoomFor tids.now tid.now (length tids.now)) }
{
    match tids.last() {
        Some(last) => compare_places(last, tid).is_lt(),
        None => true,
    }
}

/// The number that the place would have, if it is not there. It is not searched for where it is above all others.
fn number_for(tids: &[Tid], tid: &Tid) -> Option<usize>
    requires { AreAscending tids.now }
    ensures room { IfSome result (IsRoomFor tids.now tid.now) }
    ensures there { IfNone result (Contains tids.now tid.now) }
{
    if is_above(tids, tid) {
        return Some(tids.len());
    }
    match search(tids, tid) {
        Ok(_) => None,
        Err(number) => Some(number),
    }
}

/// Puts a place where it belongs, if it is not there.
fn put(tids: &mut ArrayVec<Tid, MOST_PLACES>, tid: Tid)
    requires ascending { AreAscending tids.old.items }
    requires room { array_vec_len tids.old < MOST_PLACES }
    ensures adds { AddsPlace tids.old.items tids.new.items tid }
    ensures last { All (λ t. PlacePrecedes t tid) tids.old.items
        → tids.new.items ≡ tids.old.items ++ tid ∷ [] }
{
    if let Some(number) = number_for(tids.as_slice(), &tid) {
        tids.insert(number, tid);
    }
}
