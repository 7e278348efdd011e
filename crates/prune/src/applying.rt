//! A plan's changes of a page.

ghost use Rattle.std.specs.Prelude.{◌≡◌, ◌+◌, length, ℕ};
ghost use Rattle.hot_chain.specs.Chain.{has_aborted};
ghost use Rattle.prune.specs.Actions.{CanDo, CanApply, after_action, applied};
ghost use Rattle.prune.specs.Cutting.{RemovesVersions};
ghost use Rattle.sound_page.specs.Links.{NoSharedSlots};
ghost use Rattle.sound_page.specs.Dead.{IsDeadAt};
ghost use Rattle.prune.specs.Pruning.{IsPruned};
ghost use Rattle.sound_page.specs.Sound.{KeepsRoots, SoundPage};
ghost use Rattle.sound_page.specs.Readers.{KeepsFound};
ghost use Rattle.prune.specs.Laws.{IsPrunedPage};
ghost use Rattle.prune.specs.Marks.{ListsDoubtful};

use crate::action::PrunePlan;
use crate::glance::{Numbers, list_doubtful};
use crate::planning::list_actions;
use arrayvec::ArrayVec;
use commit_status::StatusTable;
use page_slots::Page;
use prune_actions::Action;
use xid_circle::Xid;

/// Does one thing to a slot.
fn act(page: &mut Page, number: u16, action: Action)
    requires { CanDo (length page.old.slots) number action }
    ensures { page.new ≡ after_action page.old number action }
{
    match action {
        Action::Unuse => page.set_unused(number),
        Action::Kill => page.set_dead(number),
        Action::Redirect(target) => page.set_redirect(number, target),
    }
}

/// Does what is named, and nothing else: the change number is raised, modulo 2^64, for each slot that is changed.
/// Each slot named, and each redirect's target, is one of the page's; so it is where the actions check. It takes no memory.
pub fn apply_actions(page: &mut Page, actions: &[(u16, Action)])
    requires { CanApply (length page.old.slots) actions.now }
    ensures { page.new ≡ applied actions.now page.old }
{
    for action in actions {
        act(page, action.0, action.1);
    }
}

/// Prunes a page where only these slots need more than a glance. It is a function of its own, so that its list is cleared only
/// where it is called.
#[inline(never)]
fn prune_doubtful(page: &mut Page, doubtful: &[u16], statuses: &StatusTable, horizon: Xid)
    requires doubtful { ListsDoubtful statuses.now horizon.0 page.old.slots doubtful.now }
    ensures { IsPrunedPage statuses.now horizon.0 page.old page.new }
{
    let mut plan = PrunePlan {
        change: page.change(),
        actions: ArrayVec::new(),
    };
    list_actions(&mut plan.actions, doubtful, page, statuses, horizon);
    apply_actions(page, plan.actions.as_slice());
}

/// Prunes a page by its plan.
fn prune_by_plan(page: &mut Page, statuses: &StatusTable, horizon: Xid)
    ensures { IsPrunedPage statuses.now horizon.0 page.old page.new }
{
    let _limit = page.slots();
    let mut doubtful: Numbers = ArrayVec::new();
    list_doubtful(&mut doubtful, page, statuses);
    if !doubtful.is_empty() {
        prune_doubtful(page, doubtful.as_slice(), statuses, horizon);
    }
}

/// Prunes a page at this horizon. Where no version is dead, which [`first_death`](crate::first_death) tells at less cost,
/// nothing changes. It takes no memory. (It is for callers that prune and keep no plan. What is proved of a pruning is said here.)
pub fn prune(page: &mut Page, statuses: &StatusTable, horizon: Xid)
    ensures by_plan { IsPrunedPage statuses.now horizon.0 page.old page.new }
    ensures pruned { IsPruned statuses.now horizon.0 page.old.slots page.new.slots }
    ensures removes { RemovesVersions statuses.now horizon.0 page.old.slots page.new.slots }
    ensures roots { NoSharedSlots (has_aborted statuses.now) page.old.slots
        → KeepsRoots page.old.slots page.new.slots }
    ensures never_seen { SoundPage statuses.now page.old.slots
        → KeepsFound statuses.now horizon.0 page.old.slots page.new.slots }
    ensures none_dead { SoundPage statuses.now page.old.slots → (n : ℕ)
        → ¬ IsDeadAt statuses.now horizon.0 page.new.slots n }
    ensures flag { page.new.flag ≡ page.old.flag }
{
    prune_by_plan(page, statuses, horizon);
}
