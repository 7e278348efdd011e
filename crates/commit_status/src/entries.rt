//! What is known of ids, a byte for each, and eight more for one that has a parent.

ghost use Rattle.std.specs.Prelude.{◌≡◌, ℕ, ◌+◌, ◌-◌, ◌^◌, ◌∷◌, ◌++◌, ◌<◌, ◌≤◌, [], drop, length, map, set, slice_get, Some, IfOk, OnOk, OnErr, vec_len, vec_capacity};
ghost use Rattle.std.specs.Option.{option_map};
ghost use Rattle.commit_status.specs.Window.{IdEntry, status_in, parent_at};
ghost use Rattle.commit_status.specs.Changes.{given_entry};
ghost use Rattle.commit_status.specs.Entries.{StandInOrder, placed_earlier, with_child};
ghost use Rattle.commit_status.specs.declared.entries.Child.{Child};

use crate::status::Status;
use std::alloc::{AllocError, Global};
use std::marker::Model;
use std::mem::size_of;
use xid_circle::Xid;

/// An id that has a parent.
#[derive(Clone, Copy, Debug)]
struct Child {
    // where the id stands among all
    place: u32,
    // the number of the id under which it was begun
    parent: u32,
}

const _: () = prove!(size_of::<Status>() == 1);

const _: () = prove!(size_of::<Child>() == 8);

/// What is known of ids, in order of giving. Few have a parent, so those stand in a list of their own.
#[derive(Debug, Drop)]
pub(crate) struct IdEntries {
    statuses: Vec<Status>,
    children: Vec<Child>,
}

impl Model for IdEntries {
    ghost use Rattle.std.specs.Prelude.{◌-◌, min, vec_len, vec_capacity};
    ghost use Rattle.commit_status.specs.Entries.{EntriesView, known_from, AreChildren};

    ghost Value = { EntriesView };

    ghost view = { λ e. record {
      items = known_from 0 e.statuses.items e.children.items;
      spare = min (vec_capacity e.statuses - vec_len e.statuses)
          (vec_capacity e.children - vec_len e.children);
    } };

    ghost invariant = { λ e. AreChildren e.children.items (vec_len e.statuses) };
}

/// How many children stand before a place.
fn count_before(children: &[Child], place: usize) -> usize
    requires { StandInOrder children.now }
    ensures fits { result ≤ length children.now }
    ensures before { (i : ℕ) (c : Child) → i < result → slice_get children.now i ≡ Some c
        → c.place < place }
    ensures behind { (i : ℕ) (c : Child) → result ≤ i → slice_get children.now i ≡ Some c
        → place ≤ c.place }
{
    let mut low = 0;
    let mut high = children.len();
    'halving: while low < high {
        let middle = low + (high - low) / 2;
        if (children[middle].place as usize) < place {
            low = middle + 1;
        } else {
            high = middle;
        }
    }
    low
}

/// Forgets the first `count` of a list.
fn forget_first<T: Drop>(items: &mut Vec<T>, count: usize)
    requires { count ≤ vec_len items.old }
    ensures items { items.new.items ≡ drop count items.old.items }
    ensures room { vec_capacity items.old - vec_len items.old
        ≤ vec_capacity items.new - vec_len items.new }
{
    let rest = items.len() - count;
    items.rotate_left(count);
    items.truncate(rest);
}

/// Children stand so many places further up.
fn move_up(children: &mut [Child], count: u32)
    ensures { children.new ≡ map (placed_earlier count) children.old }
{
    for child in children.iter_mut() {
        child.place = child.place.saturating_sub(count);
    }
}

/// Notes whose child the id at a place is, if it has a parent.
fn note_child(children: &mut Vec<Child>, place: u32, parent: Option<Xid>)
    requires { vec_len children.old < vec_capacity children.old }
    ensures items { children.new.items
        ≡ with_child children.old.items place (option_map (λ p. p.0) parent) }
    ensures room { vec_capacity children.old - vec_len children.old
        ≤ vec_capacity children.new - vec_len children.new + 1 }
{
    if let Some(parent) = parent {
        children.push_reserved(Child {
            place,
            parent: parent.0,
        });
    }
}

impl IdEntries {
    /// Nothing is known of any id.
    pub(crate) fn new(alloc: Global) -> Self
        ensures { result.items ≡ [] }
    {
        IdEntries {
            statuses: Vec::new(alloc),
            children: Vec::new(alloc),
        }
    }

    /// Of how many ids something is known. (The lists are private to this type.)
    #[inline(always)]
    pub(crate) fn len(&self) -> usize
        ensures { result ≡ length self.now.items }
    {
        self.statuses.len()
    }

    /// The same of the same ids, in memory of its own.
    pub(crate) fn copy(&self, alloc: Global) -> Result<IdEntries, AllocError>
        ensures { IfOk result (λ entries. entries.items ≡ self.now.items) }
    {
        let statuses = Vec::from_slice(alloc, self.statuses.as_slice())?;
        let children = Vec::from_slice(alloc, self.children.as_slice())?;
        Ok(IdEntries { statuses, children })
    }

    /// What became of the id at a place.
    #[inline(always)]
    pub(crate) fn status(&self, place: usize) -> Status
        requires { place < length self.now.items }
        ensures { result ≡ status_in (slice_get self.now.items place) }
    {
        self.statuses[place]
    }

    /// The parent of the id at a place, if it has one.
    pub(crate) fn parent(&self, place: usize) -> Option<Xid>
        requires { place < length self.now.items }
        ensures { option_map (λ p. p.0) result ≡ parent_at self.now.items place }
    {
        let at = count_before(self.children.as_slice(), place);
        let child = self.children.get(at)?;
        if child.place as usize == place {
            Some(Xid(child.parent))
        } else {
            None
        }
    }

    /// Makes room, so that the next `n` ids take no memory.
    #[inline(always)]
    pub(crate) fn reserve(&mut self, n: usize) -> Result<(), AllocError>
        ensures items { self.new.items ≡ self.old.items }
        ensures spare { self.old.spare ≤ self.new.spare }
        ensures room { OnOk result (n ≤ self.new.spare) }
        ensures refused { OnErr result (self.old.spare < n) }
        ensures lacking { OnErr result (self.new.spare < n) }
    {
        self.statuses.reserve(n)?;
        self.children.reserve(n)
    }

    /// Adds an id that was just given, for which there is room.
    pub(crate) fn push(&mut self, parent: Option<Xid>)
        requires few { length self.old.items < 2 ^ 32 }
        requires room { 0 < self.old.spare }
        ensures items { self.new.items
            ≡ self.old.items ++ given_entry (option_map (λ p. p.0) parent) ∷ [] }
        ensures spare { self.old.spare ≤ self.new.spare + 1 }
    {
        note_child(&mut self.children, self.statuses.len() as u32, parent);
        self.statuses.push_reserved(Status::InProgress);
    }

    /// The id at a place takes another status, and keeps its parent.
    pub(crate) fn finish(&mut self, place: usize, status: Status)
        requires { place < length self.old.items }
        ensures items { (old : IdEntry) → slice_get self.old.items place ≡ Some old
            → self.new.items ≡ set self.old.items place (record old { status = status }) }
        ensures spare { self.new.spare ≡ self.old.spare }
    {
        self.statuses[place] = status;
    }

    /// Forgets the first `count` ids.
    pub(crate) fn forget(&mut self, count: u32)
        requires { count ≤ length self.old.items }
        ensures items { self.new.items ≡ drop count self.old.items }
        ensures spare { self.old.spare ≤ self.new.spare }
    {
        let forgotten = count_before(self.children.as_slice(), count as usize);
        forget_first(&mut self.statuses, count as usize);
        forget_first(&mut self.children, forgotten);
        move_up(self.children.as_mut_slice(), count);
    }
}
