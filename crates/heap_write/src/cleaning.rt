//! The calls of a vacuum, beside pruning. Nothing here takes memory.

ghost use Rattle.std.specs.Prelude.{◌≡◌, ◌<◌, ℕ, [], ◌∷◌, Some, MatchOption, Contains, length, map, slice_get};
ghost use Rattle.std.specs.List.{AllPairs};
ghost use Rattle.xid_circle.specs.declared.Tid.{Tid as Place};
ghost use Rattle.page_sheet.specs.declared.slot.Slot.TheVariants.{Dead};
ghost use Rattle.page_sheet.specs.Slots.{slot_at, next_change};
ghost use Rattle.commit_status.specs.Window.{IsWindow, IsUpToNext};
ghost use Rattle.prune.specs.Actions.{raised};
ghost use Rattle.table_indexes.specs.Indexes.{IsInUse, HasIndexes, IsNextIndex, all_entries};
ghost use Rattle.heap_write.specs.Cleaning.{FreezesAndNotes, Notes, SweepsAt, FreesSlots, FreesAt, ForgetsBefore};

use crate::heap::HeapState;
use dead_places::DeadSet;
use freeze::{DeadSlots, freeze_page, mark_of};
use page_slots::Page;
use root_index::{Entry, PositionHint, Progress};
use space_maps::Mark;
use xid_circle::{Tid, Xid};

impl HeapState {
    /// The mark of the page of this number, if it is in use: whether each of its versions is visible to all, and frozen. (The
    /// pages are private.)
    pub fn mark(&self, number: u32) -> Option<Mark>
        ensures { result ≡ slice_get self.now.pages.marks number }
    {
        self.pages.mark(number)
    }

    /// Freezes the page of this number, which is in use, at the cutoff, as [`freeze_page`] does, and then notes its visibility bits
    /// at the horizon. It answers which slots are dead. (The manual's "Preventing Transaction ID Wraparound Failures".)
    pub fn freeze_and_note(&mut self, number: u32, cutoff: Xid, horizon: Xid) -> DeadSlots
        requires within { number < length self.old.pages.pages }
        ensures { FreezesAndNotes self.old self.new number cutoff.0 horizon.0 result.items }
    {
        let statuses = &self.statuses;
        let found = self.pages.edit(number, |page| {
            freeze_page(page, number, cutoff, horizon, statuses)
        });
        self.pages.note(number, found.mark);
        found.dead
    }

    /// Notes the visibility bits of the page of this number, which is in use, at the horizon: in the visibility map, and in the
    /// page's flag.
    pub fn note(&mut self, number: u32, horizon: Xid)
        requires within { number < length self.old.pages.pages }
        ensures { Notes self.old self.new number horizon.0 }
    {
        if let Some(page) = self.pages.page(number) {
            let mark = mark_of(page, horizon, &self.statuses);
            self.pages.note(number, mark);
        }
    }

    /// Makes the dead ones of these slots unused. They are slots of the page of this number, which is in use, in ascending order.
    /// No entry is to lead to one: that is asked of the table (`sound_vacuum`), and not here. (The pages are private.)
    pub fn free(&mut self, number: u32, places: &[Tid])
        requires within { number < length self.old.pages.pages }
        requires ascending { AllPairs (λ a b. a < b) (map (λ (tid : Place). tid.slot) places.now) }
        ensures { FreesAt self.old self.new number (map (λ (tid : Place). tid.slot) places.now) }
    {
        self.pages.edit(number, |page| free_slots(page, places));
    }

    /// Goes through a piece of the index of this number, which is in use: of its entries after `from`, or of all, those go that
    /// lead to a dead place. It answers where the piece ended, and takes where the one before did, as
    /// [`root_index::RootIndex::remove_where`] does. (The indexes are private, here and below.)
    pub fn sweep(
        &mut self,
        number: u8,
        dead: &DeadSet,
        from: Option<Entry>,
        near: PositionHint,
    ) -> (Progress, PositionHint)
        requires { IsInUse self.old.indexes number }
        ensures { SweepsAt self.old self.new number dead.now from result.0 }
    {
        self.indexes.sweep(number, dead, from, near)
    }

    /// The first index in use after that of this number, if there is one.
    pub fn next_index(&self, number: u8) -> Option<u8>
        ensures { MatchOption result ((n : ℕ) → number < n → ¬ IsInUse self.now.indexes n)
            (λ next. IsNextIndex self.now.indexes number next) }
    {
        self.indexes.next_after(number)
    }

    /// How many entries all indexes have.
    pub fn entries(&self) -> u128
        ensures { result ≡ all_entries self.now.indexes }
    {
        self.indexes.entries()
    }

    /// Index 0 is in use, and at most five are. It does nothing; its contract is the fact.
    pub fn fact_indexes(&self)
        ensures { HasIndexes self.now.indexes }
    {
        self.indexes.fact_few();
    }

    /// Forgets the ids before this one, which is remembered or the next. An index that was exact from an earlier one on is exact from
    /// this one on. Turns are counted from the oldest id, so what is known of pages ends: but not where nothing is forgotten.
    pub fn forget(&mut self, x: Xid)
        requires { IsUpToNext self.old.statuses x.0 }
        ensures forgets { ForgetsBefore self.old self.new x.0 }
        ensures window { IsWindow self.new.statuses }
    {
        self.indexes.forget(x);
        self.statuses.fact_window();
        if x.0 == self.statuses.frozen_below().0 {
            return;
        }
        self.statuses.truncate(x);
        self.statuses.fact_window();
        self.hints.end_all();
    }
}

/// Makes the slot of this place unused, if it is dead.
fn free_slot(page: &mut Page, number: u16)
    ensures slots { FreesSlots page.old.slots page.new.slots (number ∷ []) }
    ensures change { slot_at page.old.slots number ≡ Some Dead
        → page.new.change ≡ next_change page.old.change }
    ensures flag { page.new.flag ≡ page.old.flag }
{
    if page.is_dead(number) {
        page.set_unused(number);
    }
}

/// Makes the dead ones of these slots unused.
fn free_slots(page: &mut Page, places: &[Tid])
    requires { AllPairs (λ a b. a < b) (map (λ (tid : Place). tid.slot) places.now) }
    ensures slots { FreesSlots page.old.slots page.new.slots
        (map (λ (tid : Place). tid.slot) places.now) }
    ensures change { ((n : ℕ) → Contains (map (λ (tid : Place). tid.slot) places.now) n
        → slot_at page.old.slots n ≡ Some Dead)
        → page.new.change ≡ raised (length places.now) page.old.change }
    ensures flag { page.new.flag ≡ page.old.flag }
{
    for place in places {
        free_slot(page, place.slot);
    }
}
