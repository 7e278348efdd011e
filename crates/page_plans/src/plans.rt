//! The plans of many pages.

ghost use Rattle.std.specs.Prelude.{◌≡◌, ◌<◌, IfOk, OnErr, length};
ghost use Rattle.std.specs.Vec.{VecUnchanged};
ghost use Rattle.std.specs.List.{AllZip};
ghost use Rattle.page_views.specs.View.{page_behind, pages_behind};
ghost use Rattle.page_plans.specs.Plans.{IsPlanOfPage, IsPlanAt};

use arrayvec::ArrayVec;
use commit_status::StatusTable;
use page_slots::Page;
use page_views::PageViews;
use prune::{PrunePlan, plan};
use rayon::slice::par_for_each_mut;
use std::alloc::{AllocError, Global};
use std::sync::Arc;
use std::thread::Threads;
use xid_circle::Xid;

/// The plan of each page, beside the page's number, in order: those that [`plan`] makes of one after another, made in several threads. It
/// is handed no latch, and takes memory for the list alone.
pub fn plan_pages(
    rt: &(impl Threads + Sync),
    alloc: Global,
    views: &PageViews,
) -> Result<Vec<(u32, PrunePlan)>, AllocError>
    ensures { IfOk result
        (λ plans. AllZip (IsPlanOfPage views.now.statuses views.now.horizon)
        views.now.pages plans.items) }
{
    let mut plans = Vec::new(alloc);
    plan_pages_into(rt, views, &mut plans)?;
    Ok(plans)
}

/// Does what [`plan_pages`] does, and puts the plans in the place of those in the list. So a caller that plans again and again
/// takes memory only where there are more pages than before. Where it is refused the list stays as it was.
pub fn plan_pages_into(
    rt: &(impl Threads + Sync),
    views: &PageViews,
    plans: &mut Vec<(u32, PrunePlan)>,
) -> Result<(), AllocError>
    ensures plans { IfOk result
        (λ _. AllZip (IsPlanOfPage views.now.statuses views.now.horizon)
        views.now.pages plans.new.items) }
    ensures refused { OnErr result (VecUnchanged plans.old plans.new) }
{
    let pages = views.pages();
    plans.resize_with(
        pages.len(),
        || (
            0,
            PrunePlan {
                change: 0,
                actions: ArrayVec::new(),
            },
        ),
    )?;
    plan_each(
        rt,
        pages,
        views.statuses(),
        views.horizon(),
        plans.as_mut_slice(),
    );
    Ok(())
}

/// The plan of a page, beside its number.
fn plan_one(page: &(u32, Arc<Box<Page>>), statuses: &StatusTable, horizon: Xid) -> (u32, PrunePlan)
    ensures { IsPlanOfPage statuses.now horizon.0 (page_behind page.now) result }
{
    (page.0, plan(&page.1, statuses, horizon))
}

/// Writes the plan of each of these pages to its place. Each thread has a share of the places, so no plan is moved afterwards.
fn plan_each(
    rt: &(impl Threads + Sync),
    pages: &[(u32, Arc<Box<Page>>)],
    statuses: &StatusTable,
    horizon: Xid,
    plans: &mut [(u32, PrunePlan)],
)
    requires { length plans.old ≡ length pages.now }
    ensures { AllZip (IsPlanOfPage statuses.now horizon.0) (pages_behind pages.now) plans.new }
{
    par_for_each_mut(
        rt,
        plans,
        |at: usize, place: &mut (u32, PrunePlan)|
            requires { at < length pages.now }
            ensures { IsPlanAt statuses.entry.now horizon.0 (pages_behind pages.entry.now)
                at place.new }
        {
            *place = plan_one(&pages[at], statuses, horizon);
        },
    );
}
