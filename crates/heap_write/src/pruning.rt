//! A page is cleaned.

ghost use Rattle.std.specs.Prelude.{◌≡◌, ◌<◌, length, OnOk, OnErr, IfErr, IsTrue};
ghost use Rattle.heap_write.specs.Heap.{page_on};
ghost use Rattle.heap_write.specs.Writes.{Prunes};
ghost use Rattle.heap_write.specs.Refusals.{Unpruned};
ghost use Rattle.prune.specs.Actions.{CanApply};
ghost use Rattle.prune.specs.Pruning.{IsPlan};
ghost use Rattle.heap_write.specs.Steps.{HasNoneDead, with_applied};

use crate::heap::HeapState;
use prune::{Action, PrunePlan, apply_actions, first_death, plan_by_doubts};
use thiserror::Error;
use xid_circle::Xid;

/// Why a page was not pruned.
#[derive(Clone, Copy, Debug, PartialEq, Eq, Error)]
pub enum PruneFault {
    /// There are no more pages in use than its number.
    #[error("there is no such page")]
    NoSuchPage,
}

impl HeapState {
    /// Takes from the page of this number, counted from 0, what nobody can see any more at the horizon. It takes
    /// no memory, and the fault leaves all as it was. (The manual's "Heap-Only Tuples"; README.HOT, "Pruning".)
    pub fn prune(&mut self, number: u32, horizon: Xid) -> Result<(), PruneFault>
        ensures ok { OnOk result (Prunes self.old self.new number horizon.0) }
        ensures fault { IfErr result (λ fault. Unpruned self.old number fault) }
        ensures err { OnErr result (self.new ≡ self.old) }
    {
        if number >= self.pages.len() {
            return Err(PruneFault::NoSuchPage);
        }
        if !self.knows_none_dead(number, horizon) {
            self.prune_page(number, horizon);
        }
        Ok(())
    }

    /// True where it is known that no version on the page of this number is dead: the horizon isn't after the turn from which on
    /// one may be.
    pub(crate) fn knows_none_dead(&self, number: u32, horizon: Xid) -> bool
        ensures { IsTrue result → HasNoneDead self.now number horizon.0 }
    {
        self.statuses.fact_window();
        match (
            self.pages.page(number),
            self.hints.turn(number),
            self.statuses.turn_of(horizon),
        ) {
            (Some(page), Some(known), Some(turn)) => {
                let _limit = page.slots();
                turn <= known
            }
            _ => false,
        }
    }

    /// Notes from when on there may be a dead version on the page of this number, where there is none.
    pub(crate) fn note_first_death(&mut self, number: u32, horizon: Xid)
        ensures { self.new ≡ self.old }
    {
        if let Some(page) = self.pages.page(number) {
            if let Some(turn) = first_death(page, &self.statuses, horizon) {
                self.hints.note(number, turn);
            }
        }
    }

    /// Prunes the page of this number, which is in use. It is a function of its own, so that the plan's array is cleared only where
    /// it is made.
    #[inline(never)]
    fn prune_page(&mut self, number: u32, horizon: Xid)
        requires within { number < length self.old.pages.pages }
        ensures { Prunes self.old self.new number horizon.0 }
    {
        let mut plan = PrunePlan::new();
        self.plan_page(&mut plan, number, horizon);
        if plan.actions.is_empty() {
            self.note_first_death(number, horizon);
            return;
        }
        self.do_actions(number, plan.actions.as_slice());
    }

    /// Makes the plan of pruning the page of this number, which is in use, in the place of an earlier one. It notes what it finds
    /// of where versions on the page may be dead.
    pub(crate) fn plan_page(&mut self, plan: &mut PrunePlan, number: u32, horizon: Xid)
        requires within { number < length self.old.pages.pages }
        ensures same { self.new ≡ self.old }
        ensures can_apply { CanApply (length (page_on self.old number).slots)
            plan.new.actions.items }
        ensures exact { IsPlan self.old.statuses horizon.0 (page_on self.old number).slots
            plan.new.actions.items }
    {
        let page = self.pages.page_at(number);
        let mut doubts = self.hints.doubts(number);
        plan_by_doubts(plan, page, &mut doubts, &self.statuses, horizon);
        self.hints.note_doubts(number, doubts);
    }

    /// Does these actions on the page of this number, which is in use. (It says of the table, once for all callers, what the other says
    /// of a page.)
    pub(crate) fn do_actions(&mut self, number: u32, actions: &[(u16, Action)])
        requires within { number < length self.old.pages.pages }
        requires can_apply { CanApply (length (page_on self.old number).slots) actions.now }
        ensures { self.new ≡ with_applied self.old number actions.now }
    {
        self.pages.edit(number, |page| apply_actions(page, actions));
    }
}
