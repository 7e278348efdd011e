//! A vacuum's visit of a page: pruned, frozen and noted, in one change of it. It takes no memory.

ghost use Rattle.std.specs.Prelude.{◌≡◌, ◌<◌, length};
ghost use Rattle.freeze.specs.Freezing.{FreezesPage};
ghost use Rattle.freeze.specs.AllVisible.{IsAllVisible, IsPageMark};
ghost use Rattle.freeze.specs.DeadSlots.{ListsDead};
ghost use Rattle.prune.specs.Actions.{CanApply, applied};
ghost use Rattle.heap_write.specs.Heap.{page_on};
ghost use Rattle.heap_write.specs.Steps.{with_applied};
ghost use Rattle.heap_write.specs.Cleaning.{FreezesAndNotes, PrunesAndFreezes};

use crate::heap::HeapState;
use commit_status::StatusTable;
use freeze::{DeadSlots, FrozenPage, freeze_page};
use page_slots::Page;
use prune::{PrunePlan, apply_actions, plan};
use xid_circle::Xid;

impl HeapState {
    /// Prunes the page of this number, which is in use, at the horizon, as [`HeapState::prune`] does, and then freezes and notes it
    /// as [`HeapState::freeze_and_note`] does. It answers which slots are dead then. (The manual's "Routine Vacuuming".)
    pub fn clean(&mut self, number: u32, cutoff: Xid, horizon: Xid) -> DeadSlots
        requires within { number < length self.old.pages.pages }
        ensures { PrunesAndFreezes self.old self.new number cutoff.0 horizon.0 result.items }
    {
        if self.knows_none_dead(number, horizon) {
            self.freeze_and_note(number, cutoff, horizon)
        } else {
            self.clean_by_plan(number, cutoff, horizon)
        }
    }

    /// Does so where a version on the page may be dead. It is a function of its own, so that the plan's array is cleared only where
    /// it is made.
    #[inline(never)]
    fn clean_by_plan(&mut self, number: u32, cutoff: Xid, horizon: Xid) -> DeadSlots
        requires within { number < length self.old.pages.pages }
        ensures { PrunesAndFreezes self.old self.new number cutoff.0 horizon.0 result.items }
    {
        let plan = plan(self.pages.page_at(number), &self.statuses, horizon);
        let found = self.freeze_by_plan(number, &plan, cutoff, horizon);
        if found.mark.is_visible() {
            self.note_none_deleted(number, horizon);
        } else if plan.actions.is_empty() {
            self.note_first_death(number, horizon);
        }
        found.dead
    }

    /// Does what a plan names on the page of this number, then freezes it, and notes its visibility bits. Its free-space byte is made
    /// up once.
    fn freeze_by_plan(
        &mut self,
        number: u32,
        plan: &PrunePlan,
        cutoff: Xid,
        horizon: Xid,
    ) -> FrozenPage
        requires within { number < length self.old.pages.pages }
        requires can_apply { CanApply (length (page_on self.old number).slots)
            plan.now.actions.items }
        ensures freezes { FreezesAndNotes (with_applied self.old number plan.now.actions.items)
            self.new number cutoff.0 horizon.0 result.dead.items }
        ensures mark { IsPageMark self.new.statuses horizon.0 (page_on self.new number).slots
            result.mark }
        ensures within { number < length self.new.pages.pages }
    {
        let statuses = &self.statuses;
        let found = self.pages.edit(number, |page| {
            apply_and_freeze(page, plan, number, cutoff, horizon, statuses)
        });
        self.pages.note(number, found.mark);
        self.hints.end(number);
        found
    }

    /// Notes of the page of this number that no version on it dies before the next id is given: each is settled, so nobody has
    /// deleted one. The slots aren't gone over for that.
    fn note_none_deleted(&mut self, number: u32, horizon: Xid)
        requires within { number < length self.old.pages.pages }
        requires visible { IsAllVisible self.old.statuses horizon.0
            (page_on self.old number).slots }
        ensures { self.new ≡ self.old }
    {
        self.statuses.fact_window();
        let next = self.statuses.next();
        let turn = self.statuses.turn_of(next).unwrap_or(0);
        self.hints.note(number, turn);
    }
}

/// Does what a plan names on a page, and then freezes it.
fn apply_and_freeze(
    page: &mut Page,
    plan: &PrunePlan,
    number: u32,
    cutoff: Xid,
    horizon: Xid,
    statuses: &StatusTable,
) -> FrozenPage
    requires { CanApply (length page.old.slots) plan.now.actions.items }
    ensures freezes { FreezesPage statuses.now cutoff.0 number
        (applied plan.now.actions.items page.old) page.new }
    ensures mark { IsPageMark statuses.now horizon.0 page.new.slots result.mark }
    ensures dead { ListsDead page.new.slots result.dead.items }
{
    apply_actions(page, plan.actions.as_slice());
    freeze_page(page, number, cutoff, horizon, statuses)
}
