//! Updates of rows whose page has no room for them.
//!
//! The page's plan says, before anything changes, what pruning takes from it and how much room that makes. So memory is made
//! ready for one place alone, on the page or elsewhere, before the plan is applied.

ghost use Rattle.std.specs.Prelude.{◌≡◌, ℕ, ◌≤◌, ◌<◌, IfErr, IfOk, IfSome, OnErr, OnOk};
ghost use Rattle.commit_status.specs.Window.{IsWindow};
ghost use Rattle.snapshot.specs.Own.{unassigned_levels};
ghost use Rattle.page_sheet.specs.Slots.{room_of};
ghost use Rattle.tuple_header.specs.Version.{rounded_size_of};
ghost use Rattle.prune.specs.Actions.{applied};
ghost use Rattle.table_indexes.specs.Indexes.{HasEntries};
ghost use Rattle.heap_write.specs.Heap.{page_on, Keeps};
ghost use Rattle.heap_write.specs.Writes.{HotUpdates, Replaces, TableIsFull};
ghost use Rattle.write_ids.specs.Ids.{NewestIsGiven, SameOwn, HasIds};
ghost use Rattle.heap_write.specs.Refusals.{RootNeedsMemory, VersionIsThere, AnswersUpdate};
ghost use Rattle.heap_write.specs.Growth.{IsReserved};
ghost use Rattle.heap_write.specs.Steps.{IsChosen, IsPlanOn, IsPlanAround, IsLeftAlone, IsReplaceable, IsDoneUnder, with_applied};

use crate::heap::{Answer, HeapState, WriteFault};
use crate::hints::expect_write;
use crate::target::{Target, reserve_place};
use prune::{Action, PrunePlan, apply_actions, room_after};
use snapshot::OwnIds;
use std::alloc::AllocError;
use tuple_header::{Row, row_size};
use tuple_writes::hot_update;
use write_ids::{needs_freeze, reserve_ids, take_ids};
use xid_circle::{Tid, Xid};

impl HeapState {
    /// Replaces the version at a place by one of this row, as [`HeapState::update_on_page`] does, but where the page has no room
    /// for it. The page is pruned at the horizon, a normal id, unless the version itself would go with that. The new version
    /// goes to the same page where it has room then, else where a new root goes, and is a root. It answers NeedsFreeze
    /// exactly where the levels lack more ids than can be given. Else it answers NoMemory only where something has to grow.
    /// Then, where the page was pruned, it answers NoRoom exactly where all pages that there may be are in use and none has
    /// room. A refused update gives no id, and changes nothing but that the page may be pruned.
    pub fn update_full_page(
        &mut self,
        own: &mut OwnIds,
        place: Tid,
        row: &Row,
        horizon: Xid,
    ) -> Answer
        requires newest { NewestIsGiven self.old.statuses own.old }
        requires there { VersionIsThere self.old place }
        requires room { room_of (page_on self.old place.page).slots < rounded_size_of row.now }
        ensures { AnswersUpdate self.old self.new own.old own.new place row.now horizon.0 result }
    {
        self.statuses.fact_window();
        if needs_freeze(&self.statuses, own) {
            return Err(WriteFault::NeedsFreeze);
        }
        // where no version on the page is dead, as far as is known, pruning would leave it as it is: nobody goes over it
        if self.knows_none_dead(place.page, horizon) {
            self.update_unpruned(own, place, row)
        } else {
            self.update_by_plan(own, place, row, horizon)
        }
    }

    /// Updates a version whose page has no room for the row, by the plan of its pruning. It is a function of its own, so that the
    /// plan's array is cleared only where it is made.
    #[inline(never)]
    fn update_by_plan(&mut self, own: &mut OwnIds, place: Tid, row: &Row, horizon: Xid) -> Answer
        requires may { IsReplaceable self.old own.old place }
        requires room { room_of (page_on self.old place.page).slots < rounded_size_of row.now }
        ensures { AnswersUpdate self.old self.new own.old own.new place row.now horizon.0 result }
    {
        self.statuses.fact_window();
        let mut plan = PrunePlan::new();
        self.plan_page(&mut plan, place.page, horizon);
        if plan.actions.is_empty() {
            self.note_first_death(place.page, horizon);
            return self.update_unpruned(own, place, row);
        }
        if plan.names(place.slot) {
            return self.update_unpruned(own, place, row);
        }
        let page = self.pages.page_at(place.page);
        let actions = plan.actions.as_slice();
        if row_size(row) <= room_after(page, &plan) {
            self.update_on_pruned(own, place, row, actions)
        } else {
            self.update_off_pruned(own, place, row, actions)
        }
    }

    /// Updates a version whose page has no room for the row, and is left as it is: a new root goes elsewhere.
    fn update_unpruned(&mut self, own: &mut OwnIds, place: Tid, row: &Row) -> Answer
        requires may { IsReplaceable self.old own.old place }
        requires room { room_of (page_on self.old place.page).slots < rounded_size_of row.now }
        ensures { (horizon : ℕ) → IsLeftAlone self.old place horizon
            → AnswersUpdate self.old self.new own.old own.new place row.now horizon result }
    {
        let reserved = self.reserve_root(own, row);
        self.statuses.fact_window();
        match reserved {
            Ok(target) => self.update_elsewhere(own, place, row, target),
            Err(_) => Err(WriteFault::NoMemory),
        }
    }

    /// Updates a version whose page has room for the row once these actions are done, which leave the version there.
    fn update_on_pruned(
        &mut self,
        own: &mut OwnIds,
        place: Tid,
        row: &Row,
        actions: &[(u16, Action)],
    ) -> Answer
        requires may { IsReplaceable self.old own.old place }
        requires room { room_of (page_on self.old place.page).slots < rounded_size_of row.now }
        requires around { IsPlanAround self.old place actions.now }
        requires fits { rounded_size_of row.now
            ≤ room_of (applied actions.now (page_on self.old place.page)).slots }
        ensures { (horizon : ℕ) → IsPlanOn self.old place.page horizon actions.now
            → AnswersUpdate self.old self.new own.old own.new place row.now horizon result }
    {
        let heap_only = self.keeps_values(place, row);
        let reserved = self.reserve_ids_for(own, heap_only, row);
        self.statuses.fact_window();
        match reserved {
            Ok(()) if heap_only => Ok(self.hot_update_on_pruned(own, place, row, actions)),
            Ok(()) => {
                self.do_actions(place.page, actions);
                Ok(self.cold_update(own, place, row, Target::Page(place.page)))
            }
            Err(_) => Err(WriteFault::NoMemory),
        }
    }

    /// Does these actions on the page of a version, which leave it there, and replaces it by a heap-only one on that page, which has
    /// room for it then. The page is changed once, so its room and its marks are noted once.
    fn hot_update_on_pruned(
        &mut self,
        own: &mut OwnIds,
        place: Tid,
        row: &Row,
        actions: &[(u16, Action)],
    ) -> Xid
        requires may { IsReplaceable self.old own.old place }
        requires has_ids { HasIds self.old.statuses own.old }
        requires around { IsPlanAround self.old place actions.now }
        requires fits { rounded_size_of row.now
            ≤ room_of (applied actions.now (page_on self.old place.page)).slots }
        ensures under { IsDoneUnder self.old self.new own.old own.new result.0 }
        ensures replaces { HotUpdates (with_applied self.old place.page actions.now) self.new place
            result.0 row.now }
    {
        let x = take_ids(&mut self.statuses, own);
        let _slot = self.pages.write(place.page, |page| {
            apply_actions(page, actions);
            hot_update(page, place.page, place.slot, x, row)
        });
        expect_write(&mut self.hints, &self.statuses, place, x);
        x
    }

    /// Updates a version whose page has no room for the row even once these actions are done, which leave the version there: a
    /// new root goes elsewhere.
    fn update_off_pruned(
        &mut self,
        own: &mut OwnIds,
        place: Tid,
        row: &Row,
        actions: &[(u16, Action)],
    ) -> Answer
        requires may { IsReplaceable self.old own.old place }
        requires room { room_of (page_on self.old place.page).slots < rounded_size_of row.now }
        requires around { IsPlanAround self.old place actions.now }
        requires full { room_of (applied actions.now (page_on self.old place.page)).slots
            < rounded_size_of row.now }
        ensures { (horizon : ℕ) → IsPlanOn self.old place.page horizon actions.now
            → AnswersUpdate self.old self.new own.old own.new place row.now horizon result }
    {
        let reserved = self.reserve_root(own, row);
        self.statuses.fact_window();
        match reserved {
            Ok(target) => {
                self.do_actions(place.page, actions);
                self.update_elsewhere(own, place, row, target)
            }
            Err(_) => Err(WriteFault::NoMemory),
        }
    }

    /// Makes room in memory for a new root of this row, with its entries and an id for each level that lacks one, and answers where it
    /// goes, if anywhere.
    fn reserve_root(&mut self, own: &mut OwnIds, row: &Row) -> Result<Option<Target>, AllocError>
        ensures keeps { Keeps self.old self.new }
        ensures none { unassigned_levels own.old.ids own.old.saved ≡ 0
            → self.new.statuses ≡ self.old.statuses }
        ensures own { SameOwn own.old own.new }
        ensures has_ids { OnOk result (HasIds self.new.statuses own.new) }
        ensures has_entries { OnOk result (HasEntries self.new.indexes row.now) }
        ensures chosen { IfOk result (λ found. IsChosen self.new (rounded_size_of row.now) found) }
        ensures ready { IfOk result
            (λ found. IfSome found
            (λ target. IsReserved self.new.pages (rounded_size_of row.now) target)) }
        ensures needs { OnErr result (RootNeedsMemory self.old own.old row.now) }
    {
        reserve_ids(&mut self.statuses, own)?;
        self.indexes.make_room(row)?;
        reserve_place(
            self.alloc,
            &mut self.pages,
            &mut self.hints,
            row_size(row),
            self.max_pages,
        )
    }

    /// Updates a version whose page has no room for the row where a new root goes, if that is anywhere.
    fn update_elsewhere(
        &mut self,
        own: &mut OwnIds,
        place: Tid,
        row: &Row,
        target: Option<Target>,
    ) -> Answer
        requires may { IsReplaceable self.old own.old place }
        requires has_ids { HasIds self.old.statuses own.old }
        requires has_entries { HasEntries self.old.indexes row.now }
        requires room { room_of (page_on self.old place.page).slots < rounded_size_of row.now }
        requires chosen { IsChosen self.old (rounded_size_of row.now) target }
        requires ready { IfSome target
            (λ t. IsReserved self.old.pages (rounded_size_of row.now) t) }
        ensures under { IfOk result (λ x. IsDoneUnder self.old self.new own.old own.new x.0) }
        ensures replaces { IfOk result (λ x. Replaces self.old self.new place x.0 row.now) }
        ensures fault { IfErr result (λ fault. (fault ≡ WriteFault.NoRoom)
            × TableIsFull self.old (rounded_size_of row.now)) }
        ensures err { OnErr result ((self.new ≡ self.old) × SameOwn own.old own.new) }
        ensures window { IsWindow self.new.statuses }
    {
        self.statuses.fact_window();
        match target {
            Some(target) => Ok(self.cold_update(own, place, row, target)),
            None => Err(WriteFault::NoRoom),
        }
    }
}
