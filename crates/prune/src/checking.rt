//! Checks a plan before it is applied to a page.

ghost use Rattle.std.specs.Prelude.{◌≡◌, ◌≤◌, ◌<◌, ◌↔◌, ℕ, IsTrue, None, Some, true, length, slice_index};
ghost use Rattle.hot_chain.specs.Chain.{is_root};
ghost use Rattle.prune.specs.Actions.{AreInOrder, CanApply, action_of};
ghost use Rattle.prune.specs.Pruning.{orphan_action};
ghost use Rattle.prune.specs.Marks.{AreNumbers};
ghost use Rattle.prune.specs.Checks.{HasPrefix, Checks};
ghost use Rattle.prune.specs.Named.{named_at, IsNamedPrefix, BecomesUnused, IsLooseRight};
ghost use Rattle.tuple_header.specs.declared.version.TheConstants.{MOST_SLOTS, MOST_SLOT_NUMBERS};

use crate::action::PrunePlan;
use crate::glance::{Numbers, list_doubtful};
use crate::marks::{Marks, PruneVerdict, cut_count, mark_page, root_action};
use crate::planning::orphan_action;
use arrayvec::ArrayVec;
use commit_status::StatusTable;
use hot_chain::{chain, is_root};
use page_slots::Page;
use prune_actions::Action;
use tuple_header::MOST_SLOT_NUMBERS;
use xid_circle::Xid;

/// A plan's action for each slot, by its number, from 0 to 291.
type Named = [Option<Action>; MOST_SLOT_NUMBERS];

/// True where this is the page's change number: a plan with it was made for the page as it is now.
fn is_fresh(page: &Page, change: u64) -> bool
    ensures { IsTrue result ↔ (change ≡ page.now.change) }
{
    change == page.change()
}

/// True where the named slots ascend strictly, and a page of this many slots has them all.
fn are_in_order(count: u16, actions: &[(u16, Action)]) -> bool
    ensures { IsTrue result ↔ AreInOrder count 0 actions.now }
{
    let mut last = 0;
    for action in actions {
        if action.0 <= last || count < action.0 {
            return false;
        }
        last = action.0;
    }
    true
}

/// Indexes these actions by slot number.
fn named_by(actions: &[(u16, Action)]) -> Named
    requires { AreInOrder MOST_SLOTS 0 actions.now }
    ensures { (n : ℕ) → named_at result n ≡ action_of actions.now n }
{
    let mut named = [None; MOST_SLOT_NUMBERS];
    for action in actions {
        named[usize::from(action.0)] = Some(action.1);
    }
    named
}

/// How many of the first of these slots are named, up to one that isn't.
fn prefix_of(named: &Named, numbers: &[u16]) -> usize
    requires { AreNumbers numbers.now }
    ensures { IsNamedPrefix named.now numbers.now result }
{
    for (i, number) in numbers.iter().enumerate() {
        if named[usize::from(*number)].is_none() {
            return i;
        }
    }
    numbers.len()
}

/// True where none of these slots is named.
fn are_unnamed(named: &Named, numbers: &[u16]) -> bool
    requires { AreNumbers numbers.now }
    ensures { IsTrue result
        ↔
        ((i : ℕ) → i < length numbers.now → named_at named.now (slice_index numbers.now i) ≡ None) }
{
    for number in numbers {
        if named[usize::from(*number)].is_some() {
            return false;
        }
    }
    true
}

/// True where the slot becomes unused, or holds no heap-only version.
fn becomes_unused(page: &Page, named: &Named, number: u16) -> bool
    requires { number < MOST_SLOT_NUMBERS }
    ensures { IsTrue result ↔ BecomesUnused page.now.slots named.now number }
{
    let action = named[usize::from(number)];
    match page.header(number) {
        Some(header) => !header.is_heap_only() || matches!(action, Some(Action::Unuse)),
        None => true,
    }
}

/// True where [`becomes_unused`] holds of each of these slots.
fn become_unused(page: &Page, named: &Named, numbers: &[u16]) -> bool
    requires { AreNumbers numbers.now }
    ensures { IsTrue result
        ↔
        ((i : ℕ) → i < length numbers.now
        → BecomesUnused page.now.slots named.now (slice_index numbers.now i)) }
{
    for number in numbers {
        if !becomes_unused(page, named, *number) {
            return false;
        }
    }
    true
}

/// True where both are the same action, or neither is one.
fn are_same(a: Option<Action>, b: Option<Action>) -> bool
    ensures { IsTrue result ↔ (a ≡ b) }
{
    a == b
}

/// True where the plan cuts off this root's chain a prefix that pruning would cut too, and sets the root accordingly.
fn has_prefix(page: &Page, named: &Named, root: u16, statuses: &StatusTable, horizon: Xid) -> bool
    requires number { root < MOST_SLOT_NUMBERS }
    ensures { IsTrue result
        ↔ HasPrefix statuses.now horizon.0 page.now.slots (named_at named.now) root }
{
    let _limit = page.slots();
    let slots = chain(page, root, statuses);
    let numbers = slots.as_slice();
    let prefix = prefix_of(named, numbers);
    if !are_unnamed(named, &numbers[prefix..]) {
        return false;
    }
    if !become_unused(page, named, &numbers[..prefix]) {
        return false;
    }
    if cut_count(page, numbers, statuses, horizon) < prefix {
        return false;
    }
    are_same(named[usize::from(root)], root_action(prefix, numbers))
}

/// True where [`has_prefix`] holds of each root.
fn have_prefixes(page: &Page, named: &Named, statuses: &StatusTable, horizon: Xid) -> bool
    ensures { IsTrue result
        ↔
        ((root : ℕ) → is_root page.now.slots root ≡ true
        → HasPrefix statuses.now horizon.0 page.now.slots (named_at named.now) root) }
{
    for root in 1..page.slots() + 1 {
        if is_root(page, root) && !has_prefix(page, named, root, statuses, horizon) {
            return false;
        }
    }
    true
}

/// True where the slot has another mark than `Orphan`, or the plan leaves it as it is, or does to it what pruning does.
fn is_allowed(
    page: &Page,
    marks: &Marks,
    named: &Named,
    number: u16,
    statuses: &StatusTable,
) -> bool
    requires { number < MOST_SLOT_NUMBERS }
    ensures { IsTrue result ↔ IsLooseRight statuses.now page.now.slots marks.now named.now number }
{
    let mark = marks[usize::from(number)];
    let action = named[usize::from(number)];
    match mark {
        PruneVerdict::Kept | PruneVerdict::Goes(_) => true,
        PruneVerdict::Orphan => {
            action.is_none() || are_same(action, orphan_action(page, number, statuses))
        }
    }
}

/// True where [`is_allowed`] holds of each slot.
fn are_accounted(page: &Page, marks: &Marks, named: &Named, statuses: &StatusTable) -> bool
    ensures { IsTrue result
        ↔
        ((n : ℕ) → 1 ≤ n → n ≤ length page.now.slots
        → IsLooseRight statuses.now page.now.slots marks.now named.now n) }
{
    for number in 1..page.slots() + 1 {
        if !is_allowed(page, marks, named, number, statuses) {
            return false;
        }
    }
    true
}

/// True where actions may be done on a page, no matter who planned them and when. The change number is the page's. The slots ascend
/// strictly, and are on the page. Each chain loses a prefix that pruning at this horizon would cut too. Every other slot named holds an
/// aborted heap-only version that no chain reaches. It takes no memory.
pub fn check_actions(
    page: &Page,
    change: u64,
    actions: &[(u16, Action)],
    statuses: &StatusTable,
    horizon: Xid,
) -> bool
    ensures exact { IsTrue result
        ↔ Checks statuses.now horizon.0 page.now change actions.now }
    ensures can_apply { IsTrue result → CanApply (length page.now.slots) actions.now }
{
    if !is_fresh(page, change) || !are_in_order(page.slots(), actions) {
        return false;
    }
    let named = named_by(actions);
    let mut marks = [PruneVerdict::Orphan; MOST_SLOT_NUMBERS];
    let mut doubtful: Numbers = ArrayVec::new();
    list_doubtful(&mut doubtful, page, statuses);
    mark_page(&mut marks, doubtful.as_slice(), page, statuses, horizon);
    have_prefixes(page, &named, statuses, horizon) && are_accounted(page, &marks, &named, statuses)
}

/// True where a plan may be applied to a page: [`check_actions`] allows its actions there. (It is for callers that have a plan whole.)
pub fn check_plan(page: &Page, plan: &PrunePlan, statuses: &StatusTable, horizon: Xid) -> bool
    ensures exact { IsTrue result
        ↔ Checks statuses.now horizon.0 page.now plan.now.change plan.now.actions.items }
    ensures can_apply { IsTrue result → CanApply (length page.now.slots) plan.now.actions.items }
{
    check_actions(
        page,
        plan.change,
        plan.actions.as_slice(),
        statuses,
        horizon,
    )
}
