//! The plan of a page on which one version alone may be dead, now or later. It marks no slot, and lists no chain.

ghost use Rattle.std.specs.Prelude.{◌≡◌, ◌≤◌, ◌<◌, [], ◌∷◌, false, IsTrue, IfSome, Some, length};
ghost use Rattle.page_sheet.specs.Slots.{slot_at, IsNormalAt};
ghost use Rattle.sound_page.specs.Dead.{IsDeadAt};
ghost use Rattle.prune.specs.Actions.{CanApply};
ghost use Rattle.prune.specs.Pruning.{root_action, IsPlan};
ghost use Rattle.prune.specs.Glances.{ArePlainBut, AreDoubts};
ghost use Rattle.prune.specs.OneDoubt.{IsRedirectTo, IsFirstRedirect, BeginsIn, AreThose, second_of, first_cut};

use crate::action::Actions;
use crate::dead::is_dead_at;
use crate::glance::is_plain_at;
use crate::planning::orphan_action;
use commit_status::StatusTable;
use hot_chain::{is_root, next_in_chain};
use page_slots::Page;
use prune_actions::Action;
use space_maps::{DOUBT_PLACES, Doubts, with_doubt};
use xid_circle::Xid;

/// How many slots of a kind there are.
#[derive(Clone, Copy, Debug)]
pub(crate) enum SlotsOfKind {
    /// There is none.
    NoSlot,
    /// There is this one.
    One(u16),
    /// There are several.
    Several,
}

/// The slot of the only version that is not plain, or 0 where each is. It is None where that isn't known, or there are several.
fn only_doubt(page: &Page, doubts: Doubts, statuses: &StatusTable) -> Option<u16>
    requires known { AreDoubts statuses.now page.now.slots doubts }
    ensures { IfSome result (λ only. ArePlainBut statuses.now page.now.slots (only ∷ [])) }
{
    let numbers = doubts?;
    let mut only = 0;
    for number in &numbers {
        if *number != 0 && *number != only && !is_plain_at(page, *number, statuses) {
            if only != 0 {
                return None;
            }
            only = *number;
        }
    }
    Some(only)
}

/// The first slot, from this number on, that is a redirect to the target. It is a function of its own, so that its loop, over all
/// pointers of a page, keeps to registers.
#[inline(never)]
fn next_redirect(page: &Page, from: u16, target: u16) -> Option<u16>
    requires { 1 ≤ from }
    ensures { IsFirstRedirect page.now.slots target from result }
{
    for number in from..page.slots() + 1 {
        if page.redirects_to(number, target) {
            return Some(number);
        }
    }
    None
}

/// The redirects to a slot, slot by slot.
fn redirects_found(page: &Page, target: u16) -> SlotsOfKind
    ensures { AreThose (IsRedirectTo page.now.slots target) result }
{
    let _limit = page.slots();
    match next_redirect(page, 1, target) {
        None => SlotsOfKind::NoSlot,
        Some(first) => match next_redirect(page, first + 1, target) {
            None => SlotsOfKind::One(first),
            Some(_second) => SlotsOfKind::Several,
        },
    }
}

/// The redirects to a slot. One look over several slots at once tells nearly always that there is none.
fn redirects_to(page: &Page, target: u16) -> SlotsOfKind
    ensures { AreThose (IsRedirectTo page.now.slots target) result }
{
    if page.is_redirected(target) {
        redirects_found(page, target)
    } else {
        SlotsOfKind::NoSlot
    }
}

/// The roots and redirects whose chains begin in this slot, which holds a version.
fn roots_at(page: &Page, start: u16) -> SlotsOfKind
    requires { IsNormalAt page.now.slots start }
    ensures { AreThose (BeginsIn page.now.slots start) result }
{
    let redirects = redirects_to(page, start);
    if !is_root(page, start) {
        return redirects;
    }
    match redirects {
        SlotsOfKind::NoSlot => SlotsOfKind::One(start),
        _ => SlotsOfKind::Several,
    }
}

/// Lists what becomes of a root and of the first version of its chain, in order of slots. The list is empty before.
fn list_both(actions: &mut Actions, root: u16, start: u16, action: Action)
    requires blank { actions.old.items ≡ [] }
    ensures { actions.new.items ≡ first_cut root start action }
{
    if root < start {
        actions.push((root, action));
        actions.push((start, Action::Unuse));
    } else if start < root {
        actions.push((start, Action::Unuse));
        actions.push((root, action));
    } else {
        actions.push((root, action));
    }
}

/// What becomes of a root when the first version of its chain goes alone, which is in this slot, and leads to the next, if to any.
fn first_action(start: u16, next: Option<u16>) -> Action
    ensures { Some result ≡ root_action 1 (second_of start next) }
{
    match next {
        Some(next) => {
            if next == start {
                Action::Kill
            } else {
                Action::Redirect(next)
            }
        }
        None => Action::Kill,
    }
}

/// Lists what becomes of the only root whose chain begins in this slot, and of the slot, whose version is the only one that is dead.
/// The list is empty before.
fn list_cut(
    actions: &mut Actions,
    page: &Page,
    root: u16,
    start: u16,
    statuses: &StatusTable,
    horizon: Xid,
)
    requires blank { actions.old.items ≡ [] }
    requires known { ArePlainBut statuses.now page.now.slots (start ∷ []) }
    requires dead { IsDeadAt statuses.now horizon.0 page.now.slots start }
    requires only { AreThose (BeginsIn page.now.slots start) (SlotsOfKind.One root) }
    ensures can_apply { CanApply (length page.now.slots) actions.new.items }
    ensures exact { IsPlan statuses.now horizon.0 page.now.slots actions.new.items }
{
    let _limit = page.slots();
    let next = next_in_chain(page, start, statuses);
    let action = first_action(start, next);
    list_both(actions, root, start, action);
}

/// Lists what becomes of this slot, whose version is the only one that is dead, and to which no root leads. The list is empty before.
fn list_orphan(
    actions: &mut Actions,
    page: &Page,
    number: u16,
    statuses: &StatusTable,
    horizon: Xid,
)
    requires blank { actions.old.items ≡ [] }
    requires known { ArePlainBut statuses.now page.now.slots (number ∷ []) }
    requires dead { IsDeadAt statuses.now horizon.0 page.now.slots number }
    requires none { AreThose (BeginsIn page.now.slots number) SlotsOfKind.NoSlot }
    ensures can_apply { CanApply (length page.now.slots) actions.new.items }
    ensures exact { IsPlan statuses.now horizon.0 page.now.slots actions.new.items }
{
    let _limit = page.slots();
    if let Some(action) = orphan_action(page, number, statuses) {
        actions.push((number, action));
    }
}

/// Lists the changes of pruning a page on which each version is plain but that in this slot. It answers false, and lists none, where
/// several chains begin there. The list is empty before.
fn list_one(
    actions: &mut Actions,
    page: &Page,
    number: u16,
    statuses: &StatusTable,
    horizon: Xid,
) -> bool
    requires blank { actions.old.items ≡ [] }
    requires known { ArePlainBut statuses.now page.now.slots (number ∷ []) }
    ensures can_apply { IsTrue result → CanApply (length page.now.slots) actions.new.items }
    ensures exact { IsTrue result
        → IsPlan statuses.now horizon.0 page.now.slots actions.new.items }
    ensures none { result ≡ false → actions.new.items ≡ [] }
    ensures several { result ≡ false
        → AreThose (BeginsIn page.now.slots number) SlotsOfKind.Several }
{
    let _limit = page.slots();
    if !is_dead_at(page, number, statuses, horizon) {
        return true;
    }
    match roots_at(page, number) {
        SlotsOfKind::NoSlot => list_orphan(actions, page, number, statuses, horizon),
        SlotsOfKind::One(root) => list_cut(actions, page, root, number, statuses, horizon),
        SlotsOfKind::Several => return false,
    }
    true
}

/// Lists the changes of pruning a page, where it is known that one version at most isn't plain, and one chain at most begins there. Else
/// it answers false, and lists none. The doubt that is left replaces the old ones. The list is empty before.
pub(crate) fn list_by_one_doubt(
    actions: &mut Actions,
    page: &Page,
    doubts: &mut Doubts,
    statuses: &StatusTable,
    horizon: Xid,
) -> bool
    requires blank { actions.old.items ≡ [] }
    requires known { AreDoubts statuses.now page.now.slots doubts.old }
    ensures known { AreDoubts statuses.now page.now.slots doubts.new }
    ensures can_apply { IsTrue result → CanApply (length page.now.slots) actions.new.items }
    ensures exact { IsTrue result
        → IsPlan statuses.now horizon.0 page.now.slots actions.new.items }
    ensures none { result ≡ false → actions.new.items ≡ [] }
{
    match only_doubt(page, *doubts, statuses) {
        Some(only) => {
            *doubts = with_doubt(Some([0; DOUBT_PLACES]), only);
            list_one(actions, page, only, statuses, horizon)
        }
        None => false,
    }
}
