//! A session's own ids. The lists are private to their type, so what asks or changes one alone is a call here.

ghost use Rattle.std.specs.Prelude.{◌≡◌, ◌≢◌, ◌+◌, ◌-◌, ◌<◌, ◌≤◌, ◌↔◌, [], ◌∷◌, ◌++◌, IsTrue, IfSome, IfErr, OnOk, OnErr, slice_get, Contains, length, take, replicate};
ghost use Rattle.std.specs.Option.{option_map};
ghost use Rattle.xid_circle.specs.Circle.{IsNormal};
ghost use Rattle.commit_status.specs.Changes.{numbers};
ghost use Rattle.snapshot.specs.Own.{newest, older, unassigned_levels, current_xid, saved_with, ArePrefixes};
ghost use Rattle.snapshot.specs.Saving.{CannotSave};

use smallvec::SmallVec;
use std::alloc::{AllocError, Global};
use std::marker::Model;
use xid_circle::Xid;

/// How many savepoints a session may have.
pub const MOST_SAVEPOINTS: usize = 32;

/// Why a savepoint was not set.
#[derive(Clone, Copy, Debug, PartialEq, Eq)]
pub enum SaveFault {
    /// There are [`MOST_SAVEPOINTS`] already.
    TooDeep,
    /// Memory was refused.
    NoMemory,
}

/// The ids of an open transaction that are not rolled back, in order of giving: the first is the topmost. Marks
/// remember how many there were at each savepoint. The first four ids, and the first four marks, take no memory.
#[derive(Drop)]
pub struct OwnIds {
    ids: SmallVec<Xid, 4>,
    // how many ids there were at each savepoint, the oldest first
    marks: SmallVec<usize, 4>,
}

impl Model for OwnIds {
    ghost use Rattle.std.specs.Prelude.{◌-◌, length, reverse};
    ghost use Rattle.commit_status.specs.Changes.{numbers};
    ghost use Rattle.snapshot.specs.Own.{Own, prefixes, AreOwnIds};

    ghost Value = { Own };

    ghost view = { λ o. record {
      ids = numbers o.ids.items;
      saved = prefixes (numbers o.ids.items) (reverse o.marks.items);
      spare = o.ids.capacity - length o.ids.items;
      spare_marks = o.marks.capacity - length o.marks.items;
    } };

    ghost invariant = { λ o. AreOwnIds o.ids.items o.marks.items };
}

impl OwnIds {
    /// No id, and no savepoint.
    pub fn new(alloc: Global) -> Self
        ensures ids { result.ids ≡ [] }
        ensures saved { result.saved ≡ [] }
        ensures spare { result.spare ≡ 4 }
        ensures spare_marks { result.spare_marks ≡ 4 }
    {
        OwnIds {
            ids: SmallVec::new(alloc),
            marks: SmallVec::new(alloc),
        }
    }

    /// The topmost id, if there is one.
    pub fn first(&self) -> Option<Xid>
        ensures value { option_map (λ x. x.0) result ≡ slice_get self.now.ids 0 }
        ensures normal { IfSome result (λ x. IsNormal x.0) }
    {
        self.ids.first().copied()
    }

    /// Whether there is no id.
    pub fn is_empty(&self) -> bool
        ensures { IsTrue result ↔ (self.now.ids ≡ []) }
    {
        self.ids.is_empty()
    }

    /// The ids, in order of giving.
    pub fn as_slice(&self) -> &[Xid]
        ensures { numbers result.now ≡ self.now.ids }
    {
        self.ids.as_slice()
    }

    /// Whether an id is one of them. (The list is private to this type.)
    pub fn contains(&self, x: Xid) -> bool
        ensures { IsTrue result ↔ Contains self.now.ids x.0 }
    {
        is_among(&self.ids, x)
    }

    /// Makes room for `count` more ids. No id or savepoint changes, also where memory is refused.
    pub fn make_room(&mut self, count: usize) -> Result<(), AllocError>
        ensures room { OnOk result (count ≤ self.new.spare) }
        ensures refused { OnErr result (self.old.spare < count) }
        ensures spare { self.old.spare ≤ self.new.spare }
        ensures ids { self.new.ids ≡ self.old.ids }
        ensures saved { self.new.saved ≡ self.old.saved }
        ensures spare_marks { self.new.spare_marks ≡ self.old.spare_marks }
    {
        // it says that the ids fit
        let _ = self.ids.len();
        self.ids.reserve(count)
    }

    /// The number of savepoints.
    pub fn savepoints(&self) -> usize
        ensures { result ≡ length self.now.saved }
    {
        self.marks.len()
    }

    /// How many levels, from the newest down, have no id of their own.
    pub fn unassigned_levels(&self) -> u32
        ensures { result ≡ unassigned_levels self.now.ids self.now.saved }
    {
        let count = self.ids.len();
        let mut levels = if count == 0 { 1 } else { 0 };
        // the lowest level first: where one has an id, those below it do not count
        for mark in self.marks.as_slice() {
            levels = if *mark == count { levels + 1 } else { 0 };
        }
        levels
    }

    /// The id of the newest level that has one, if any has: the first that was given since the savepoint which begins it.
    pub fn current_xid(&self) -> Option<Xid>
        ensures value { option_map (λ x. x.0) result ≡ current_xid self.now.ids self.now.saved }
        ensures normal { IfSome result (λ x. IsNormal x.0) }
    {
        self.ids.get(self.level_start()).copied()
    }

    /// How many ids there were when the newest level began that has one.
    fn level_start(&self) -> usize
        ensures { current_xid self.now.ids self.now.saved ≡ slice_get self.now.ids result }
    {
        let count = self.ids.len();
        let mut start = 0;
        // the lowest level first: of those with ids since their savepoint, the last counts
        for mark in self.marks.as_slice() {
            start = if *mark < count { *mark } else { start };
        }
        start
    }

    /// Adds the id that was given last, to the lowest level that has none: the savepoints above that level keep it. The id
    /// is normal, there is such a level, and there is room for it, so it takes no memory.
    pub fn add(&mut self, x: Xid)
        requires room { 0 < self.old.spare }
        requires normal { IsNormal x.0 }
        requires lacking { 0 < unassigned_levels self.old.ids self.old.saved }
        ensures ids { self.new.ids ≡ self.old.ids ++ x.0 ∷ [] }
        ensures saved { self.new.saved
            ≡ saved_with (unassigned_levels self.old.ids self.old.saved - 1) x.0 self.old.saved }
        ensures spare { self.old.spare ≡ self.new.spare + 1 }
        ensures spare_marks { self.new.spare_marks ≡ self.old.spare_marks }
    {
        let above = self.unassigned_levels() as usize - 1;
        self.ids.push_reserved(x);
        raise(self.marks.as_mut_slice(), above, self.ids.len());
    }

    /// What was there at each savepoint is a prefix of what was there at the next, and of what is there now. It does
    /// nothing: its contract is the law.
    pub fn fact_prefixes(&self)
        ensures prefixes { ArePrefixes self.now.ids self.now.saved }
        ensures few { length self.now.saved ≤ MOST_SAVEPOINTS }
    {
        let _ = &self.ids;
    }

    /// Begins a savepoint: remembers how many ids there are. It answers TooDeep exactly where there are
    /// [`MOST_SAVEPOINTS`] already. It answers NoMemory only where there are four or more and the place of one more takes
    /// memory. Both leave all as it was.
    pub fn save(&mut self) -> Result<(), SaveFault>
        ensures ids { self.new.ids ≡ self.old.ids }
        ensures spare { self.new.spare ≡ self.old.spare }
        ensures saved { OnOk result (self.new.saved ≡ self.old.ids ∷ self.old.saved) }
        ensures refused { OnErr result (self.new ≡ self.old) }
        ensures room { OnOk result (length self.old.saved < MOST_SAVEPOINTS) }
        ensures spare_marks { OnOk result (self.old.spare_marks ≤ self.new.spare_marks + 1) }
        ensures fault { IfErr result (λ fault. CannotSave self.old fault) }
    {
        let count = self.ids.len();
        if self.marks.len() >= MOST_SAVEPOINTS {
            return Err(SaveFault::TooDeep);
        }
        // it says that four marks fit
        let _ = self.marks.spilled();
        if self.marks.reserve(1).is_err() {
            return Err(SaveFault::NoMemory);
        }
        self.marks.push_reserved(count);
        Ok(())
    }

    fn newest_mark(&self) -> usize
        requires { self.now.saved ≢ [] }
        ensures within { result ≤ length self.now.ids }
        ensures value { newest self.now.saved ≡ take result self.now.ids }
    {
        self.marks[self.marks.len() - 1]
    }

    /// How many ids there were at a savepoint, if there are so many savepoints: 0 stands for the newest, 1 for the one before.
    pub fn ids_at(&self, savepoint: usize) -> Option<usize>
        ensures value { option_map (λ count. take count self.now.ids) result
            ≡ slice_get self.now.saved savepoint }
        ensures within { IfSome result (λ count. count ≤ length self.now.ids) }
    {
        if savepoint < self.marks.len() {
            Some(self.marks[self.marks.len() - 1 - savepoint])
        } else {
            None
        }
    }

    /// The ids that were given since the newest savepoint. There has to be one.
    pub fn since_savepoint(&self) -> &[Xid]
        requires { self.now.saved ≢ [] }
        ensures { self.now.ids ≡ newest self.now.saved ++ numbers result.now }
    {
        let count = self.newest_mark();
        &self.ids[count..]
    }

    /// Goes back to the newest savepoint, and keeps it: the ids since then are dropped. There has to be a savepoint. It
    /// takes no memory.
    pub fn roll_back(&mut self)
        requires { self.old.saved ≢ [] }
        ensures ids { self.new.ids ≡ newest self.old.saved }
        ensures saved { self.new.saved ≡ self.old.saved }
        ensures spare { self.old.spare ≤ self.new.spare }
        ensures spare_marks { self.new.spare_marks ≡ self.old.spare_marks }
    {
        let count = self.newest_mark();
        self.ids.truncate(count);
    }

    /// Forgets the newest savepoint, and keeps the ids since then. There has to be a savepoint. It takes no memory.
    pub fn release(&mut self)
        requires { self.old.saved ≢ [] }
        ensures ids { self.new.ids ≡ self.old.ids }
        ensures saved { self.new.saved ≡ older self.old.saved }
        ensures spare { self.new.spare ≡ self.old.spare }
        ensures spare_marks { self.new.spare_marks ≡ self.old.spare_marks + 1 }
    {
        // it says that the marks fit
        let _ = self.marks.len();
        let _ = self.marks.pop();
    }
}

/// Makes the last marks, as many as `above`, what is given.
fn raise(marks: &mut [usize], above: usize, mark: usize)
    requires { above ≤ length marks.old }
    ensures { marks.new ≡ take (length marks.old - above) marks.old ++ replicate above mark }
{
    let kept = marks.len() - above;
    marks[kept..].fill(mark);
}

/// Whether an id is in a list.
fn is_among(ids: &[Xid], x: Xid) -> bool
    ensures { IsTrue result ↔ Contains (numbers ids.now) x.0 }
{
    for id in ids {
        if *id == x {
            return true;
        }
    }
    false
}
