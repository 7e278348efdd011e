//! The plan of a page's pruning.

ghost use Rattle.std.specs.Prelude.{◌≡◌, ◌<◌, ◌+◌, [], length};
ghost use Rattle.prune.specs.Actions.{CanApply};
ghost use Rattle.prune.specs.Pruning.{orphan_action, IsPlan};
ghost use Rattle.hot_chain.specs.Chain.{has_aborted};
ghost use Rattle.sound_page.specs.Links.{NoSharedSlots};
ghost use Rattle.prune.specs.Checks.{Checks};
ghost use Rattle.prune.specs.Marks.{mark_at, planned, ListsDoubtful};
ghost use Rattle.prune.specs.Glances.{AreDoubts};
ghost use Rattle.tuple_header.specs.declared.version.TheConstants.{MOST_SLOT_NUMBERS};

use crate::action::{Actions, PrunePlan};
use crate::glance::{Numbers, doubts_among, list_by_doubts, list_doubtful};
use crate::marks::{Marks, PruneVerdict, mark_page};
use crate::one_doubt::list_by_one_doubt;
use arrayvec::ArrayVec;
use commit_status::StatusTable;
use page_slots::Page;
use prune_actions::Action;
use space_maps::Doubts;
use tuple_header::MOST_SLOT_NUMBERS;
use xid_circle::Xid;

/// The action on a slot that no chain reaches, if there is one.
pub(crate) fn orphan_action(page: &Page, number: u16, statuses: &StatusTable) -> Option<Action>
    ensures { result ≡ orphan_action statuses.now page.now.slots number }
{
    let header = page.header(number)?;
    if header.is_heap_only() && !header.is_frozen() && statuses.is_aborted(header.xmin) {
        Some(Action::Unuse)
    } else {
        None
    }
}

/// The action on a slot, by its mark, if there is one.
fn action_at(page: &Page, marks: &Marks, number: u16, statuses: &StatusTable) -> Option<Action>
    requires { number < MOST_SLOT_NUMBERS }
    ensures { result ≡ planned statuses.now page.now.slots number (mark_at marks.now number) }
{
    match marks[usize::from(number)] {
        PruneVerdict::Kept => None,
        PruneVerdict::Goes(action) => Some(action),
        PruneVerdict::Orphan => orphan_action(page, number, statuses),
    }
}

/// Lists the changes of pruning a page where only these slots need more than a glance. The list is empty before. It is a function
/// of its own, so that its arrays are cleared only where it is called.
#[inline(never)]
pub(crate) fn list_actions(
    actions: &mut Actions,
    doubtful: &[u16],
    page: &Page,
    statuses: &StatusTable,
    horizon: Xid,
)
    requires blank { actions.old.items ≡ [] }
    requires doubtful { ListsDoubtful statuses.now horizon.0 page.now.slots doubtful.now }
    ensures can_apply { CanApply (length page.now.slots) actions.new.items }
    ensures exact { IsPlan statuses.now horizon.0 page.now.slots actions.new.items }
{
    let _limit = page.slots();
    let mut marks = [PruneVerdict::Orphan; MOST_SLOT_NUMBERS];
    mark_page(&mut marks, doubtful, page, statuses, horizon);
    for number in doubtful {
        if let Some(action) = action_at(page, &marks, *number, statuses) {
            actions.push((*number, action));
        }
    }
}

/// The changes of pruning a page at this horizon in order of slots: of each chain the prefix up to and with
/// the last dead version goes. Where no slot is in the chains of two roots or redirects, there is one such plan, and it
/// checks. It takes no memory. (README.HOT, "Pruning") It is inlined, so that the plan, a few kilobytes, is made where it is used.
#[inline(always)]
pub fn plan(page: &Page, statuses: &StatusTable, horizon: Xid) -> PrunePlan
    ensures change { result.change ≡ page.now.change }
    ensures can_apply { CanApply (length page.now.slots) result.actions.items }
    ensures exact { IsPlan statuses.now horizon.0 page.now.slots result.actions.items }
    ensures checks { NoSharedSlots (has_aborted statuses.now) page.now.slots
        → Checks statuses.now horizon.0 page.now result.change result.actions.items }
{
    let _limit = page.slots();
    let mut plan = PrunePlan {
        change: page.change(),
        actions: ArrayVec::new(),
    };
    let mut doubtful: Numbers = ArrayVec::new();
    list_doubtful(&mut doubtful, page, statuses);
    if !doubtful.is_empty() {
        list_actions(
            &mut plan.actions,
            doubtful.as_slice(),
            page,
            statuses,
            horizon,
        );
    }
    plan
}

/// Lists such changes. If the page's doubts are known, it looks at those slots alone, and else at all. The doubts that it finds replace
/// the old ones. The list is empty before. It is a function of its own, so that its list of slots is cleared only where it is called.
#[inline(never)]
fn list_by_all_doubts(
    actions: &mut Actions,
    page: &Page,
    doubts: &mut Doubts,
    statuses: &StatusTable,
    horizon: Xid,
)
    requires blank { actions.old.items ≡ [] }
    requires known { AreDoubts statuses.now page.now.slots doubts.old }
    ensures known { AreDoubts statuses.now page.now.slots doubts.new }
    ensures can_apply { CanApply (length page.now.slots) actions.new.items }
    ensures exact { IsPlan statuses.now horizon.0 page.now.slots actions.new.items }
{
    let _limit = page.slots();
    let mut doubtful: Numbers = ArrayVec::new();
    list_by_doubts(&mut doubtful, page, doubts, statuses);
    *doubts = doubts_among(page, doubtful.as_slice(), statuses);
    if !doubtful.is_empty() {
        list_actions(actions, doubtful.as_slice(), page, statuses, horizon);
    }
}

/// Makes such a plan in the place of an earlier one. If the page's doubts are known, it looks at those slots alone, and else at
/// all. The doubts that it finds replace the old ones.
pub fn plan_by_doubts(
    plan: &mut PrunePlan,
    page: &Page,
    doubts: &mut Doubts,
    statuses: &StatusTable,
    horizon: Xid,
)
    requires known { AreDoubts statuses.now page.now.slots doubts.old }
    ensures known { AreDoubts statuses.now page.now.slots doubts.new }
    ensures change { plan.new.change ≡ page.now.change }
    ensures can_apply { CanApply (length page.now.slots) plan.new.actions.items }
    ensures exact { IsPlan statuses.now horizon.0 page.now.slots plan.new.actions.items }
    ensures checks { NoSharedSlots (has_aborted statuses.now) page.now.slots
        → Checks statuses.now horizon.0 page.now plan.new.change plan.new.actions.items }
{
    plan.change = page.change();
    plan.actions.clear();
    if !list_by_one_doubt(&mut plan.actions, page, doubts, statuses, horizon) {
        list_by_all_doubts(&mut plan.actions, page, doubts, statuses, horizon);
    }
}
