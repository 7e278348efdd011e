//! What pruning would do to a slot.

ghost use Rattle.std.specs.Prelude.{◌≡◌, None, MatchOption, slice_get};
ghost use Rattle.c_views.specs.Ids.{number_of_id_status};
ghost use Rattle.c_views.specs.Fates.{shown_version_fate, shown_fate, IsFateShown};

use crate::id::number_of_id_status;
use session_core::{Engine, SlotFate};
use slot_fates::{DeletedBy, VersionFate};

/// What pruning would do to a slot now. Fields that do not apply are 0.
#[repr(C)]
#[derive(Clone, Copy)]
pub struct SandpiperFate {
    /// 0 if the page has no such slot, 1 if it is unused, 2 if it is dead, 3 if it leads to another slot. A version goes: 4 since its maker
    /// was rolled back, 5 since its deleter has committed and is before the horizon, 6 with a later version that is dead. Or it stays: 7,
    /// nobody deleted it, or 8.
    pub kind: u32,
    /// Of 4 who made it, of 5 and 8 who deleted it.
    pub id: u32,
    /// Of 8 what became of that id: 1 in progress, or no more remembered, 2 committed, and not before the horizon, 3 rolled back.
    pub status: u32,
    /// Of 3 where it leads, of 6 the slot of that version.
    pub slot: u32,
}

/// A fate that is told by its kind, and what that has.
fn fate(kind: u32, id: u32, status: u32, slot: u16) -> SandpiperFate
    ensures { result ≡ record { kind = kind; id = id; status = status; slot = slot } }
{
    SandpiperFate {
        kind,
        id,
        status,
        slot: slot as u32,
    }
}

/// What C reads of a version's fate.
fn of_version(told: VersionFate) -> SandpiperFate
    ensures { result ≡ shown_version_fate told }
{
    match told {
        VersionFate::RolledBack(id) => fate(4, id.0, 0, 0),
        VersionFate::Deleted(id) => fate(5, id.0, 0, 0),
        VersionFate::GoesWith(slot) => fate(6, 0, 0, slot),
        VersionFate::Kept(None) => fate(7, 0, 0, 0),
        VersionFate::Kept(Some(DeletedBy { id, status })) => fate(
            8,
            id.0,
            number_of_id_status(status),
            0,
        ),
    }
}

/// What C reads of a fate.
fn of_fate(told: SlotFate) -> SandpiperFate
    ensures { result ≡ shown_fate told }
{
    match told {
        SlotFate::NoSlot => fate(0, 0, 0, 0),
        SlotFate::Unused => fate(1, 0, 0, 0),
        SlotFate::Dead => fate(2, 0, 0, 0),
        SlotFate::Redirect(target) => fate(3, 0, 0, target),
        SlotFate::Version(told) => of_version(told),
    }
}

/// The fate of a slot, if the page is in use ([`session_core::Engine::slot_fate`]).
pub fn fate_at(engine: &Engine, page: u32, slot: u16) -> Option<SandpiperFate>
    ensures { MatchOption result (slice_get engine.now.engine.core.heap.pages.pages page ≡ None)
        (IsFateShown engine.now.engine.core page slot) }
{
    match engine.slot_fate(page, slot) {
        Some(told) => Some(of_fate(told)),
        None => None,
    }
}
