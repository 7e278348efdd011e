//! The table of ids.

ghost use Rattle.std.specs.Prelude.{◌≡◌, ℕ, ◌+◌, ◌^◌, ◌∷◌, ◌-◌, ◌<◌, ◌≤◌, ◌↔◌, [], drop, length, option_copied, IsTrue, IfSome, IfOk, MatchOption, OnOk, OnErr, vec_len, vec_capacity, Contains};
ghost use Rattle.std.specs.Option.{option_map};
ghost use Rattle.xid_circle.specs.Circle.{IsNormal, distance_of, given};
ghost use Rattle.commit_status.specs.Window.{next_id, turns, place_in, entry_of, status_of, parent_of, top_of, IsGiven, IsActive, IsUpToNext, IsWindow, IsCommitted, IsAborted};
ghost use Rattle.commit_status.specs.Changes.{numbers, given_entry, Gives, CanGive, Finishes, Truncates};

use crate::entries::IdEntries;
use crate::status::{GiveFault, Status};
use std::alloc::{AllocError, Global};
use std::marker::Model;
use xid_circle::{Xid, distance, next};

/// The status and the parent of each id from the oldest that is remembered up to the next one.
#[derive(Debug, Drop)]
pub struct StatusTable {
    first: Xid,
    next: Xid,
    stop_age: u32,
    entries: IdEntries,
}

impl Model for StatusTable {
    ghost use Rattle.commit_status.specs.Window.{Window};
    ghost use Rattle.commit_status.specs.Table.{IsStatusTable};

    ghost Value = { Window };

    ghost view = { λ t. record {
      first = t.first.0;
      stop_age = t.stop_age;
      entries = t.entries.items;
      spare = t.entries.spare;
    } };

    ghost invariant = { λ t. IsStatusTable (record {
      first = t.first.0;
      stop_age = t.stop_age;
      entries = t.entries.items;
      spare = t.entries.spare;
    }) t.next.0 };
}

/// How many turns after `first` an id is given: 0, 1 and 2 have no turn.
fn turns(first: Xid, x: Xid) -> u32
    requires normal { IsNormal first.0 }
    requires normal_too { IsNormal x.0 }
    ensures { result ≡ turns first.0 x.0 }
{
    if x.0 >= first.0 {
        x.0 - first.0
    } else {
        u32::MAX - 2 - (first.0 - x.0)
    }
}

/// How far an id is from the first, that is given this many turns after it.
fn age_at(first: Xid, turn: u64) -> u64
    requires { turn < 2 ^ 33 }
    ensures before { first.0 + turn < 2 ^ 32 → result ≡ turn }
    ensures started_over { 2 ^ 32 ≤ first.0 + turn → result ≡ turn + 3 }
{
    if u64::from(first.0) + turn > u64::from(u32::MAX) {
        turn + 3
    } else {
        turn
    }
}

/// The place of an id among `count` ids from `first` on.
fn place_in(first: Xid, count: usize, x: Xid) -> Option<usize>
    requires { IsNormal first.0 }
    ensures { result ≡ place_in first.0 count x.0 }
{
    if x.0 < 3 {
        return None;
    }
    let place = turns(first, x) as usize;
    if place < count { Some(place) } else { None }
}

impl StatusTable {
    /// A table that remembers no id; the next one is `first`, a normal id. No id is given `stop_age` numbers from the
    /// oldest one, or further; `stop_age` is at most 2144483648, so the ids that are remembered stay within half of the
    /// circle.
    pub fn new(alloc: Global, first: Xid, stop_age: u32) -> Self
        requires normal { IsNormal first.0 }
        requires limit { stop_age ≤ 2144483648 }
        ensures first { result.first ≡ first.0 }
        ensures stop_age { result.stop_age ≡ stop_age }
        ensures entries { result.entries ≡ [] }
    {
        StatusTable {
            first,
            next: first,
            stop_age,
            entries: IdEntries::new(alloc),
        }
    }

    /// An equal table, in memory of its own: a byte for each id that is remembered, and eight more where it has a parent.
    pub fn copy(&self, alloc: Global) -> Result<StatusTable, AllocError>
        ensures { IfOk result (λ t. t ≡ record self.now { spare = t.spare }) }
    {
        let entries = self.entries.copy(alloc)?;
        Ok(StatusTable {
            first: self.first,
            next: self.next,
            stop_age: self.stop_age,
            entries,
        })
    }

    /// That the window is shorter than half the circle, and that parents stand before their children.
    pub fn fact_window(&self)
        ensures { IsWindow self.now }
    {
        let _first = self.first;
    }

    /// The id that is given next.
    pub fn next(&self) -> Xid
        ensures value { result.0 ≡ next_id self.now }
        ensures normal { IsNormal result.0 }
    {
        self.next
    }

    /// The oldest id that is remembered. All before it are frozen.
    pub fn frozen_below(&self) -> Xid
        ensures value { result.0 ≡ self.now.first }
        ensures normal { IsNormal result.0 }
    {
        self.first
    }

    /// Whether none of the next `n` calls of `give` would answer NeedsFreeze.
    pub fn can_give(&self, n: u32) -> bool
        ensures { IsTrue result ↔ CanGive self.now n }
    {
        if n == 0 {
            return true;
        }
        let last = self.entries.len() as u64 + u64::from(n) - 1;
        age_at(self.first, last) < u64::from(self.stop_age)
    }

    /// Gives the next id, in progress, under a parent that is remembered. It answers NeedsFreeze exactly where the
    /// id is `stop_age` numbers from the oldest one, or further, and NoMemory only where no room was made. Both
    /// change nothing.
    pub fn give(&mut self, parent: Option<Xid>) -> Result<Xid, GiveFault>
        requires { IfSome parent (λ p. IsGiven self.old p.0) }
        ensures given { IfOk result (λ x. x.0 ≡ next_id self.old) }
        ensures normal { IfOk result (λ x. IsNormal x.0) }
        ensures gives { OnOk result (Gives self.old self.new (option_map (λ p. p.0) parent)) }
        ensures spare { OnOk result (self.old.spare ≤ self.new.spare + 1) }
        ensures needs_freeze { (result ≡ Err GiveFault.NeedsFreeze)
            ↔ (self.old.stop_age ≤ distance_of self.old.first (next_id self.old)) }
        ensures no_memory { result ≡ Err GiveFault.NoMemory → self.old.spare ≡ 0 }
        ensures refused { OnErr result (self.new ≡ self.old) }
    {
        if distance(self.first, self.next) >= self.stop_age {
            return Err(GiveFault::NeedsFreeze);
        }
        let Ok(()) = self.entries.reserve(1) else {
            return Err(GiveFault::NoMemory);
        };
        self.entries.push(parent);
        let given = self.next;
        self.next = next(given);
        Ok(given)
    }

    /// Makes room, so that the next `n` calls of `give` take no memory. No id changes, also where memory is refused. (How ids are kept is
    /// private to this type.)
    pub fn make_room(&mut self, n: usize) -> Result<(), AllocError>
        ensures room { OnOk result (n ≤ self.new.spare) }
        ensures refused { OnErr result (self.old.spare < n) }
        ensures spare { self.old.spare ≤ self.new.spare }
        ensures first { self.new.first ≡ self.old.first }
        ensures stop_age { self.new.stop_age ≡ self.old.stop_age }
        ensures entries { self.new.entries ≡ self.old.entries }
    {
        self.entries.reserve(n)
    }

    /// Whether an id is remembered. (What is kept of ids is private.)
    pub fn remembers(&self, x: Xid) -> bool
        ensures { IsTrue result ↔ IsGiven self.now x.0 }
    {
        place_in(self.first, self.entries.len(), x).is_some()
    }

    /// How many turns after the oldest id that is remembered an id is given, if it is remembered or the next one.
    pub fn turn_of(&self, x: Xid) -> Option<u32>
        ensures { MatchOption result (¬ IsUpToNext self.now x.0)
            (λ turn. IsUpToNext self.now x.0 × (turn ≡ turns self.now.first x.0)) }
    {
        if x.0 < 3 {
            return None;
        }
        let turn = turns(self.first, x);
        if turn as usize <= self.entries.len() {
            Some(turn)
        } else {
            None
        }
    }

    /// What became of an id. One that is not remembered counts as in progress.
    pub fn status(&self, x: Xid) -> Status
        ensures { result ≡ status_of self.now x.0 }
    {
        match place_in(self.first, self.entries.len(), x) {
            Some(place) => self.entries.status(place),
            None => Status::InProgress,
        }
    }

    /// Whether an id was committed, as far as is remembered.
    pub fn is_committed(&self, x: Xid) -> bool
        ensures { IsTrue result ↔ IsCommitted self.now x.0 }
    {
        matches!(self.status(x), Status::Committed)
    }

    /// Whether an id was aborted, as far as is remembered.
    pub fn is_aborted(&self, x: Xid) -> bool
        ensures { IsTrue result ↔ IsAborted self.now x.0 }
    {
        matches!(self.status(x), Status::Aborted)
    }

    fn parent_of(&self, x: Xid) -> Option<Xid>
        ensures { option_map (λ p. p.0) result ≡ parent_of self.now x.0 }
    {
        let place = place_in(self.first, self.entries.len(), x)?;
        self.entries.parent(place)
    }

    /// The first ancestor of an id that is before the window if there is one, else its topmost ancestor. It is the id itself
    /// where it has no parent that is remembered.
    // (Few ids have a parent, so readers ask for this seldom.)
    #[inline(never)]
    pub fn top_of(&self, x: Xid) -> Xid
        ensures value { result.0 ≡ top_of self.now x.0 }
        ensures normal { IsNormal x.0 → IsNormal result.0 }
    {
        self.fact_window();
        let mut top = x;
        'ascent: while let Some(parent) = self.parent_of(top) {
            top = parent;
        }
        top
    }

    fn set_status(&mut self, x: Xid, status: Status)
        requires { IsGiven self.old x.0 }
        ensures { Finishes self.old self.new (x.0 ∷ []) status }
    {
        if let Some(place) = place_in(self.first, self.entries.len(), x) {
            self.entries.finish(place, status);
        }
    }

    /// Ids that are remembered and in progress become committed or aborted, all at once. It takes no memory.
    pub fn finish(&mut self, ids: &[Xid], status: Status)
        requires { (x : ℕ) → Contains (numbers ids.now) x → IsActive self.old x }
        ensures { Finishes self.old self.new (numbers ids.now) status }
    {
        for x in ids {
            self.set_status(*x, status);
        }
    }

    /// Forgets the ids before `x`, which is remembered or the next one.
    pub fn truncate(&mut self, x: Xid)
        requires { IsUpToNext self.old x.0 }
        ensures window { Truncates self.old self.new x.0 }
        ensures spare { self.old.spare ≤ self.new.spare }
    {
        self.entries.forget(turns(self.first, x));
        self.first = x;
    }
}
