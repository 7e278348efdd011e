//! The text of what holds cleaning back: the horizon, fates, plans and the vacuum.

ghost use Rattle.std.specs.Prelude.{◌≡◌, ◌++◌, OnOk, option_copied};
ghost use Rattle.script_text.specs.Grammar.{spaced, mode_text, with_feed};
ghost use Rattle.view_text.specs.Answers.{holder_text, horizon_text, kept_text, deleter_text, version_fate_text, slot_fate_text, fate_text, plan_text, phase_text, vacuum_text};

use crate::versions::running;
use calls::Mode;
use commit_status::Status;
use prune::PrunePlan;
use script_text::{RefusedGrowth, extend, label, push, put_actions, spaced_number};
use session_looks::{Hold, HorizonHolder};
use slot_fates::{DeletedBy, SlotFate, VersionFate};
use vacuum_passes::{Phase, Vacuum};
use xid_circle::Xid;

/// The fate of a slot, and what a version that stays is kept by.
#[derive(Clone, Copy, Debug, PartialEq, Eq)]
pub struct FateLook {
    /// What pruning would do to the slot.
    pub fate: SlotFate,
    /// The session that has its deleter's id, if one has.
    pub owner: Option<u8>,
    /// The horizon.
    pub horizon: Xid,
    /// The session that holds the horizon back, if one does.
    pub holder: Option<HorizonHolder>,
}

fn held_by(out: &mut Vec<u8>, holder: Option<HorizonHolder>) -> Result<(), RefusedGrowth>
    ensures { OnOk result (out.new.items ≡ out.old.items ++ holder_text holder) }
{
    match holder {
        None => extend(out, b"next"),
        Some(held) => match held.by {
            Hold::BySnapshot => label(out, b"snapshot", u64::from(held.session)),
            Hold::ById => label(out, b"id", u64::from(held.session)),
        },
    }
}

fn horizon(
    out: &mut Vec<u8>,
    horizon: Xid,
    holder: Option<HorizonHolder>,
) -> Result<(), RefusedGrowth>
    ensures { OnOk result (out.new.items ≡ out.old.items ++ horizon_text horizon.0 holder) }
{
    label(out, b"horizon", u64::from(horizon.0))?;
    push(out, b' ')?;
    held_by(out, holder)
}

/// Adds the line of the horizon, and of the session that holds it back.
pub fn tell_horizon(
    out: &mut Vec<u8>,
    x: Xid,
    holder: Option<HorizonHolder>,
) -> Result<(), RefusedGrowth>
    ensures { OnOk result
        (out.new.items ≡ out.old.items ++ with_feed (horizon_text x.0 holder)) }
{
    horizon(out, x, holder)?;
    push(out, b'\n')
}

// Why what was deleted is kept: by what became of its deleter.
fn stays_by(out: &mut Vec<u8>, look: &FateLook, status: Status) -> Result<(), RefusedGrowth>
    ensures { OnOk result (out.new.items ≡ out.old.items ++ kept_text look.now status) }
{
    match status {
        Status::Aborted => extend(out, b"aborted"),
        Status::InProgress => running(out, look.owner),
        Status::Committed => horizon(out, look.horizon, look.holder),
    }
}

// Why a version that somebody deleted stays.
fn stays(out: &mut Vec<u8>, look: &FateLook, deleter: DeletedBy) -> Result<(), RefusedGrowth>
    ensures { OnOk result (out.new.items ≡ out.old.items ++ deleter_text look.now deleter) }
{
    label(out, b"kept deleter", u64::from(deleter.id.0))?;
    push(out, b' ')?;
    stays_by(out, look, deleter.status)
}

fn version_fate(out: &mut Vec<u8>, look: &FateLook, fate: VersionFate) -> Result<(), RefusedGrowth>
    ensures { OnOk result (out.new.items ≡ out.old.items ++ version_fate_text look.now fate) }
{
    match fate {
        VersionFate::RolledBack(x) => label(out, b"dead aborted", u64::from(x.0)),
        VersionFate::Deleted(x) => {
            label(out, b"dead deleted", u64::from(x.0))?;
            label(out, b" before", u64::from(look.horizon.0))
        }
        VersionFate::GoesWith(later) => label(out, b"goes with", u64::from(later)),
        VersionFate::Kept(None) => extend(out, b"kept undeleted"),
        VersionFate::Kept(Some(deleter)) => stays(out, look, deleter),
    }
}

fn slot_fate(out: &mut Vec<u8>, look: &FateLook, fate: SlotFate) -> Result<(), RefusedGrowth>
    ensures { OnOk result (out.new.items ≡ out.old.items ++ slot_fate_text look.now fate) }
{
    match fate {
        SlotFate::NoSlot => extend(out, b"none"),
        SlotFate::Unused => extend(out, b"unused"),
        SlotFate::Dead => extend(out, b"dead"),
        SlotFate::Redirect(target) => label(out, b"redirect", u64::from(target)),
        SlotFate::Version(of) => version_fate(out, look, of),
    }
}

/// Adds the line of a slot's fate: what pruning would do to it, and why not more.
pub fn tell_fate(
    out: &mut Vec<u8>,
    page: u32,
    slot: u16,
    look: &FateLook,
) -> Result<(), RefusedGrowth>
    ensures { OnOk result
        (out.new.items ≡ out.old.items ++ with_feed (fate_text page slot look.now)) }
{
    label(out, b"fate", u64::from(page))?;
    spaced_number(out, u64::from(slot))?;
    push(out, b' ')?;
    slot_fate(out, look, look.fate)?;
    push(out, b'\n')
}

/// Adds the line of a plan.
pub fn tell_plan(out: &mut Vec<u8>, page: u32, plan: &PrunePlan) -> Result<(), RefusedGrowth>
    ensures { OnOk result
        (out.new.items ≡ out.old.items ++ with_feed (plan_text page plan.now)) }
{
    label(out, b"plan", u64::from(page))?;
    spaced_number(out, plan.change)?;
    put_actions(out, plan.actions.as_slice())?;
    push(out, b'\n')
}

fn mode(out: &mut Vec<u8>, mode: Mode) -> Result<(), RefusedGrowth>
    ensures { OnOk result (out.new.items ≡ out.old.items ++ spaced (mode_text mode)) }
{
    match mode {
        Mode::Normal => extend(out, b" normal"),
        Mode::Aggressive => extend(out, b" aggressive"),
    }
}

fn phase(out: &mut Vec<u8>, phase: Phase) -> Result<(), RefusedGrowth>
    ensures { OnOk result (out.new.items ≡ out.old.items ++ phase_text phase) }
{
    match phase {
        Phase::Heap => extend(out, b" heap"),
        Phase::Index(_, _) => extend(out, b" index"),
        Phase::Free => extend(out, b" free"),
    }
}

fn vacuum(out: &mut Vec<u8>, running: Option<&Vacuum>) -> Result<(), RefusedGrowth>
    ensures { OnOk result
        (out.new.items ≡ out.old.items ++ vacuum_text (option_copied running.entry)) }
{
    match running {
        None => extend(out, b"vacuum none"),
        Some(vacuum) => {
            extend(out, b"vacuum")?;
            mode(out, vacuum.mode())?;
            phase(out, vacuum.phase())?;
            label(out, b" next", u64::from(vacuum.next()))?;
            label(out, b" collected", vacuum.collected_count() as u64)?;
            label(out, b" horizon", u64::from(vacuum.horizon().0))?;
            label(out, b" cutoff", u64::from(vacuum.cutoff().0))
        }
    }
}

/// Adds the line of the vacuum that is running, or that none is.
pub fn tell_vacuum(out: &mut Vec<u8>, running: Option<&Vacuum>) -> Result<(), RefusedGrowth>
    ensures { OnOk result
        (out.new.items ≡ out.old.items ++ with_feed (vacuum_text (option_copied running.entry))) }
{
    vacuum(out, running)?;
    push(out, b'\n')
}
