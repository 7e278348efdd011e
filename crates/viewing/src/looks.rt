//! The answer to a look.

ghost use Rattle.std.specs.Prelude.{◌≡◌, OnOk, IfOk, option_copied};
ghost use Rattle.std.specs.List.Sorted.{IsPermutation, IsNonDecreasingBy};
ghost use Rattle.xid_circle.specs.Circle.{distance_of};
ghost use Rattle.viewing.specs.Showing.{IsFateOwner, IsFateLook, AreListed};
ghost use Rattle.viewing.specs.Steps.{ShowsLook};
ghost use Rattle.view_text.specs.declared.look.Look.TheVariants as look;

use crate::explaining::explanation;
use script_text::{RefusedGrowth, copy_numbers, tell_reply};
use session_core::{Engine, Refusal, Reply, SlotFate};
use slot_fates::VersionFate;
use snapshot::Snapshot;
use std::alloc::Global;
use view_text::{
    FateLook, Look, tell_explanation, tell_fate, tell_horizon, tell_plan, tell_session, tell_vacuum,
};

fn explain(
    alloc: Global,
    text: &mut Vec<u8>,
    engine: &Engine,
    s: u8,
    key: u64,
) -> Result<(), RefusedGrowth>
    ensures { OnOk result
        (ShowsLook engine.now (look.Explain s key) text.old.items text.new.items) }
{
    match engine.session(s) {
        Ok(_) => {
            let entries = explanation(alloc, engine, s, key)?;
            tell_explanation(text, s, key, entries.as_slice())
        }
        Err(refusal) => tell_reply(text, &Reply::Refused(refusal)),
    }
}

// The ids that a snapshot lists, in the order of the circle from its xmin on.
fn listed_by(alloc: Global, kept: Option<&Snapshot>) -> Result<Vec<u32>, RefusedGrowth>
    ensures { IfOk result (λ v. AreListed (option_copied kept.entry) v.items) }
{
    match kept {
        None => Ok(Vec::new(alloc)),
        Some(snapshot) => {
            let xmin = snapshot.xmin().0;
            let mut listed = copy_numbers(alloc, snapshot.listed_ids())?;
            listed.sort_unstable_by_key(|x| x.wrapping_sub(xmin));
            Ok(listed)
        }
    }
}

fn session(alloc: Global, text: &mut Vec<u8>, engine: &Engine, s: u8) -> Result<(), RefusedGrowth>
    ensures { OnOk result
        (ShowsLook engine.now (look.Session s) text.old.items text.new.items) }
{
    match engine.session(s) {
        Ok(open) => {
            let listed = listed_by(alloc, open.isolation.lasting_snapshot())?;
            tell_session(text, s, open, listed.as_slice(), engine.wait_of(s))
        }
        Err(refusal) => tell_reply(text, &Reply::Refused(refusal)),
    }
}

// The session that has a version's deleter, if the version stays and somebody deleted it.
fn owner_in(engine: &Engine, fate: SlotFate) -> Option<u8>
    ensures { IsFateOwner engine.now.engine.core fate result }
{
    match fate {
        SlotFate::Version(VersionFate::Kept(Some(deleter))) => engine.owner_of(deleter.id),
        _ => None,
    }
}

fn fate(text: &mut Vec<u8>, engine: &Engine, page: u32, slot: u16) -> Result<(), RefusedGrowth>
    ensures { OnOk result
        (ShowsLook engine.now (look.Fate page slot) text.old.items text.new.items) }
{
    match engine.slot_fate(page, slot) {
        Some(fate) => {
            let look = FateLook {
                fate,
                owner: owner_in(engine, fate),
                horizon: engine.horizon(),
                holder: engine.horizon_holder(),
            };
            tell_fate(text, page, slot, &look)
        }
        None => tell_reply(text, &Reply::Refused(Refusal::NoSuchPage)),
    }
}

fn plan(text: &mut Vec<u8>, engine: &Engine, page: u32) -> Result<(), RefusedGrowth>
    ensures { OnOk result (ShowsLook engine.now (look.Plan page) text.old.items text.new.items) }
{
    match engine.plan(page) {
        Some(plan) => tell_plan(text, page, &plan),
        None => tell_reply(text, &Reply::Refused(Refusal::NoSuchPage)),
    }
}

// (Each look has a function, whose contract says it of the engine.)
fn horizon(text: &mut Vec<u8>, engine: &Engine) -> Result<(), RefusedGrowth>
    ensures { OnOk result (ShowsLook engine.now look.Horizon text.old.items text.new.items) }
{
    tell_horizon(text, engine.horizon(), engine.horizon_holder())
}

fn vacuum(text: &mut Vec<u8>, engine: &Engine) -> Result<(), RefusedGrowth>
    ensures { OnOk result (ShowsLook engine.now look.Vacuum text.old.items text.new.items) }
{
    tell_vacuum(text, engine.vacuum())
}

/// Adds the answer to a look.
pub(crate) fn show_look(
    alloc: Global,
    text: &mut Vec<u8>,
    engine: &Engine,
    look: Look,
) -> Result<(), RefusedGrowth>
    ensures { OnOk result (ShowsLook engine.now look text.old.items text.new.items) }
{
    match look {
        Look::Explain(s, key) => explain(alloc, text, engine, s, key),
        Look::Session(s) => session(alloc, text, engine, s),
        Look::Horizon => horizon(text, engine),
        Look::Fate(page, slot) => fate(text, engine, page, slot),
        Look::Plan(page) => plan(text, engine, page),
        Look::Vacuum => vacuum(text, engine),
    }
}
