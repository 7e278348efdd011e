//! Plans of what is done to the slots of a page.

ghost use Rattle.std.specs.Prelude.{◌≡◌, ◌<◌, length, IfOk, OnErr};
ghost use Rattle.sandpiper_c.specs.Calls.{StaysAsIs};
ghost use Rattle.sandpiper_c.specs.Looks.{TellsPlan, TellsPlanIfFound, ShowsPlan, PlanOf};
ghost use Rattle.sandpiper_c.specs.Plans.{action_in, plan_of_places, DoesPlan};

use crate::steps::do_step;
use c_handles::{CallStatus, Sandpiper};
use c_views::{SandpiperAction, action_of, put_actions};
use session_core::{Engine, PlanIn, PrunePlan, Refusal, Step};
use std::alloc::{AllocError, Global};

/// The plan to be applied.
fn plan_of(alloc: Global, change: u64, places: &[SandpiperAction]) -> Result<PlanIn, AllocError>
    ensures plan { IfOk result (λ plan. plan ≡ plan_of_places change places.now) }
    ensures refused { OnErr result (0 < length places.now) }
{
    let mut actions = Vec::with_capacity(alloc, places.len())?;
    for place in places {
        actions.push((place.slot, action_of(place.kind, place.target)))?;
    }
    Ok(PlanIn { change, actions })
}

/// Does to the slots of a page, counted from 0, what the plan names, where it checks.
#[unsafe(no_mangle)]
pub extern "C" fn sandpiper_apply_plan(
    alloc: Global,
    table: &mut Sandpiper,
    page: u32,
    change: u64,
    actions: &[SandpiperAction],
) -> u32
    ensures { DoesPlan table.old page change actions.now result table.new }
{
    match plan_of(alloc, change, actions) {
        Ok(plan) => do_step(alloc, table, Step::ApplyPlan(page, plan)),
        Err(_) => CallStatus::Refused(Refusal::NoMemory).number(),
    }
}

/// Writes what the plan does to C's places, where these are enough, and how much it names.
fn tell_plan(
    plan: &PrunePlan,
    places: &mut [SandpiperAction],
    count: &mut usize,
    change: &mut u64,
) -> u32
    ensures { TellsPlan plan.now places.old result places.new count.new change.new }
{
    let actions = plan.actions.as_slice();
    *count = actions.len();
    *change = plan.change;
    if places.len() < actions.len() {
        return CallStatus::NoPlace.number();
    }
    put_actions(actions, places);
    CallStatus::Found.number()
}

/// The same of a page that may not be in use.
fn tell_plan_if_found(
    found: Option<PrunePlan>,
    places: &mut [SandpiperAction],
    count: &mut usize,
    change: &mut u64,
) -> u32
    ensures { TellsPlanIfFound found places.old result places.new count.new change.new }
{
    match found {
        Some(plan) => tell_plan(&plan, places, count, change),
        None => {
            *count = 0;
            *change = 0;
            CallStatus::Refused(Refusal::NoSuchPage).number()
        }
    }
}

/// The plan that a pruning of a page would follow, for the engine.
fn show_plan(
    engine: &Engine,
    page: u32,
    places: &mut [SandpiperAction],
    count: &mut usize,
    change: &mut u64,
) -> u32
    ensures { ShowsPlan engine.now.engine.core page places.old result
        places.new count.new change.new }
{
    tell_plan_if_found(engine.plan(page), places, count, change)
}

/// Writes to `actions` what a pruning of a page, counted from 0, would do now, to `count` how much that is, and to `change` the page's change
/// number.
#[unsafe(no_mangle)]
pub extern "C" fn sandpiper_plan_of(
    alloc: Global,
    table: &mut Sandpiper,
    page: u32,
    actions: &mut [SandpiperAction],
    count: &mut usize,
    change: &mut u64,
) -> u32
    ensures stays { StaysAsIs table.old table.new }
    ensures plan { PlanOf table.old page actions.old result actions.new count.new change.new }
{
    match table.take(alloc) {
        Some(held) => {
            let code = show_plan(&held.engine, page, actions, count, change);
            table.put(held);
            code
        }
        None => {
            *count = 0;
            *change = 0;
            CallStatus::NoEngine.number()
        }
    }
}
