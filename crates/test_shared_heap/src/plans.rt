//! Plans of pruning, made by threads from pages that were taken under the latch.

use crate::rows::{SETTINGS, insert, update};
use page_plans::{Action, PrunePlan, plan_pages, plan_pages_into};
use session_core::{Refusal, Reply, RunFault, Step};
use shared_heap::Shared;
use std::alloc::Global;
use std::sync::Wait;
use std::thread::Threads;

/// A row with two updates, of which a session that has ended since kept the first version; all on one page, whose change number is 5.
fn make_chain<R: Wait>(rt: &R, alloc: Global, shared: &Shared) -> bool {
    insert(rt, alloc, shared, 5);
    shared.call(rt, Step::Begin(1));
    update(rt, alloc, shared, 6);
    update(rt, alloc, shared, 7);
    shared.call(rt, Step::Prune(0));
    matches!(shared.call(rt, Step::Abort(1)), Reply::RolledBack)
}

/// Whether a page that is not in use is refused.
fn is_second_refused<R: Wait>(rt: &R, shared: &Shared) -> bool {
    matches!(shared.page_views(rt, 0, 2), Err(Refusal::NoSuchPage))
}

/// The first slot is to lead to the third, and the second to become unused.
static FRONT: [(u16, Action); 2] = [(1, Action::Redirect(3)), (2, Action::Unuse)];

/// Whether there is one plan, of the page at its change number 5, which names these.
fn is_the_plan(plans: &[(u32, PrunePlan)]) -> bool {
    plans.len() == 1
        && plans[0].0 == 0
        && plans[0].1.change == 5
        && plans[0].1.actions.as_slice() == FRONT.as_slice()
}

/// Whether that is the plan of the page as it is now, made after it was changed: in a list of its own, and in the place of another.
fn is_planned_as_it_was<R: Threads + Wait + Sync>(
    rt: &R,
    alloc: Global,
    shared: &Shared,
) -> Option<bool> {
    let views = shared.page_views(rt, 0, 1).ok()?;
    update(rt, alloc, shared, 8);
    let mut plans = plan_pages(rt, alloc, &views).ok()?;
    let is_first = is_the_plan(plans.as_slice());
    plan_pages_into(rt, &views, &mut plans).ok()?;
    Some(is_first && is_the_plan(plans.as_slice()))
}

#[test]
fn plans_of_pages_as_they_were(rt: HostRuntime) -> Result<(), RunFault> {
    let alloc = rt.alloc();
    let shared = Shared::new(alloc, SETTINGS)?;
    assert!(rt; make_chain(&rt, alloc, &shared));
    assert!(rt; is_second_refused(&rt, &shared));
    assert_eq!(rt; is_planned_as_it_was(&rt, alloc, &shared), Some(true));
    Ok(())
}
