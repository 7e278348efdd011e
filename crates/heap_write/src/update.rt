//! Updates of rows whose page has room for them.

ghost use Rattle.std.specs.Prelude.{◌≡◌, ℕ, ◌≤◌, ◌⊎◌, IfSome, IsFalse, IsSome, IsTrue, OnErr, OnOk, ◌↔◌};
ghost use Rattle.snapshot.specs.Own.{unassigned_levels};
ghost use Rattle.page_sheet.specs.Slots.{room_of, row_at};
ghost use Rattle.tuple_header.specs.Version.{rounded_size_of};
ghost use Rattle.table_indexes.specs.Indexes.{HasEntries, NeedsEntry, SameValues};
ghost use Rattle.heap_write.specs.Heap.{page_on, Keeps};
ghost use Rattle.heap_write.specs.Writes.{KeepsValues, HotUpdates, ColdUpdates};
ghost use Rattle.write_ids.specs.Ids.{NewestIsGiven, SameOwn, HasIds};
ghost use Rattle.heap_write.specs.Refusals.{VersionIsThere, NeedsIds, AnswersUpdate};
ghost use Rattle.heap_write.specs.Growth.{IsReserved, target_number};
ghost use Rattle.heap_write.specs.Steps.{IsReplaceable, IsDoneUnder};

use crate::heap::{Answer, HeapState, WriteFault};
use crate::hints::expect_write;
use crate::target::Target;
use page_slots::Page;
use snapshot::OwnIds;
use std::alloc::AllocError;
use tuple_header::{Row, row_size};
use tuple_writes::{hot_update, mark_cold_updated};
use write_ids::{needs_freeze, reserve_ids, take_ids};
use xid_circle::{Tid, Xid};

impl HeapState {
    /// Some where the row has room on the page of the version at a place; then whether it has that version's value in each index in
    /// use. One look at the page tells both. A page that is not in use has room for any row.
    pub fn fits_beside(&self, place: Tid, row: &Row) -> Option<bool>
        ensures room { IsSome result
            ↔ (rounded_size_of row.now ≤ room_of (page_on self.now place.page).slots) }
        ensures values { IfSome result
            (λ keeps_values. IsTrue keeps_values ↔ KeepsValues self.now place row.now) }
    {
        let size = row_size(row);
        match self.pages.page(place.page) {
            Some(page) if size <= page.room() => Some(self.has_values_of(page, place.slot, row)),
            Some(_full) => None,
            None => Some(true),
        }
    }

    /// Replaces the version at a place by one of this row on its page, which has room for it. It does so under the id of the
    /// session's newest level, and answers that id. Each level that has no id is given one before. The new version is
    /// heap-only where no value in an index changes, else a root, with an entry in each index. No page is pruned, so no
    /// horizon counts. It answers NeedsFreeze exactly where the levels lack more ids than can be given, else NoMemory only
    /// where something has to grow. A refused update changes nothing and gives no id. (README.HOT; PostgreSQL, `heap_update`
    /// in src/backend/access/heap/heapam.c.)
    pub fn update_on_page(
        &mut self,
        own: &mut OwnIds,
        place: Tid,
        row: &Row,
        keeps_values: bool,
    ) -> Answer
        requires newest { NewestIsGiven self.old.statuses own.old }
        requires there { VersionIsThere self.old place }
        requires room { rounded_size_of row.now ≤ room_of (page_on self.old place.page).slots }
        requires values { IsTrue keeps_values ↔ KeepsValues self.old place row.now }
        ensures { (horizon : ℕ)
            → AnswersUpdate self.old self.new own.old own.new place row.now horizon result }
    {
        self.statuses.fact_window();
        if needs_freeze(&self.statuses, own) {
            return Err(WriteFault::NeedsFreeze);
        }
        let reserved = self.reserve_ids_for(own, keeps_values, row);
        self.statuses.fact_window();
        match reserved {
            Ok(()) if keeps_values => Ok(self.write_hot_update(own, place, row)),
            Ok(()) => Ok(self.cold_update(own, place, row, Target::Page(place.page))),
            Err(_) => Err(WriteFault::NoMemory),
        }
    }

    /// True where the row has, in each index in use, the value of the version at a place.
    pub(crate) fn keeps_values(&self, place: Tid, row: &Row) -> bool
        ensures { IsTrue result ↔ KeepsValues self.now place row.now }
    {
        match self.pages.page(place.page) {
            Some(page) => self.has_values_of(page, place.slot, row),
            None => true,
        }
    }

    /// True where the row has, in each index in use, the value of the version in this slot of a page.
    fn has_values_of(&self, page: &Page, slot: u16, row: &Row) -> bool
        ensures { IsTrue result
            ↔ IfSome (row_at page.now.slots slot) (λ old. SameValues self.now.indexes old row.now) }
    {
        match page.row(slot) {
            Some(old) => self.indexes.same_values(&old, row),
            None => true,
        }
    }

    /// Makes room in memory for the ids of a write, and for its entries if it is not heap-only.
    pub(crate) fn reserve_ids_for(
        &mut self,
        own: &mut OwnIds,
        heap_only: bool,
        row: &Row,
    ) -> Result<(), AllocError>
        ensures keeps { Keeps self.old self.new }
        ensures pages { self.new.pages ≡ self.old.pages }
        ensures none { unassigned_levels own.old.ids own.old.saved ≡ 0
            → self.new.statuses ≡ self.old.statuses }
        ensures own { SameOwn own.old own.new }
        ensures has_ids { OnOk result (HasIds self.new.statuses own.new) }
        ensures has_entries { OnOk result
            (IsFalse heap_only → HasEntries self.new.indexes row.now) }
        ensures needs { OnErr result
            (NeedsIds self.old own.old ⊎ IsFalse heap_only × NeedsEntry self.old.indexes row.now) }
    {
        reserve_ids(&mut self.statuses, own)?;
        self.indexes.make_room_for(heap_only, row)
    }

    /// Replaces a version by a heap-only one on its page, which has room for it.
    fn write_hot_update(&mut self, own: &mut OwnIds, place: Tid, row: &Row) -> Xid
        requires may { IsReplaceable self.old own.old place }
        requires has_ids { HasIds self.old.statuses own.old }
        requires room { rounded_size_of row.now ≤ room_of (page_on self.old place.page).slots }
        ensures under { IsDoneUnder self.old self.new own.old own.new result.0 }
        ensures replaces { HotUpdates self.old self.new place result.0 row.now }
    {
        let x = take_ids(&mut self.statuses, own);
        let _slot = self.pages.write(place.page, |page| {
            hot_update(page, place.page, place.slot, x, row)
        });
        expect_write(&mut self.hints, &self.statuses, place, x);
        x
    }

    /// Replaces a version by a root where one goes, with room and memory for it and its entries.
    pub(crate) fn cold_update(
        &mut self,
        own: &mut OwnIds,
        place: Tid,
        row: &Row,
        target: Target,
    ) -> Xid
        requires may { IsReplaceable self.old own.old place }
        requires has_ids { HasIds self.old.statuses own.old }
        requires has_entries { HasEntries self.old.indexes row.now }
        requires ready { IsReserved self.old.pages (rounded_size_of row.now) target }
        ensures under { IsDoneUnder self.old self.new own.old own.new result.0 }
        ensures replaces { ColdUpdates self.old self.new place result.0 row.now
            (target_number self.old.pages.pages target) }
    {
        let x = take_ids(&mut self.statuses, own);
        let successor = self.put_root(target, true, x, row);
        self.pages.write(
            place.page,
            |page| mark_cold_updated(page, place.slot, x, successor),
        );
        expect_write(&mut self.hints, &self.statuses, place, x);
        x
    }
}
