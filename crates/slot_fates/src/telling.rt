//! The fate of a slot, told.

ghost use Rattle.std.specs.Prelude.{◌≡◌, ◌≤◌, None, length};
ghost use Rattle.tuple_header.specs.Faults.{header_fault};
ghost use Rattle.page_sheet.specs.Slots.{header_at};
ghost use Rattle.slot_fates.specs.Fates.{last_of, IsLastDead, IsDeleter, IsVersionFate, IsFate};

use crate::fate::{DeletedBy, SlotFate, VersionFate};
use commit_status::StatusTable;
use hot_chain::chain;
use page_slots::{Page, Slot};
use prune::cut_count;
use tuple_header::Header;
use xid_circle::{Xid, precedes};

/// The last of so many slots.
fn last_of(numbers: &[u16], count: usize) -> Option<u16>
    requires { count ≤ length numbers.now }
    ensures { result ≡ last_of numbers.now count }
{
    if count == 0 {
        return None;
    }
    Some(numbers[count - 1])
}

/// The slot of the last version that is dead, of this one and those that come after it in its chain.
fn last_dead(page: &Page, number: u16, statuses: &StatusTable, horizon: Xid) -> Option<u16>
    ensures { IsLastDead statuses.now horizon.0 page.now.slots number result }
{
    let listed = chain(page, number, statuses);
    let cut = cut_count(page, listed.as_slice(), statuses, horizon);
    last_of(listed.as_slice(), cut)
}

/// The deleter of a version, if it has one.
fn deleter_of(header: &Header, statuses: &StatusTable) -> Option<DeletedBy>
    ensures { IsDeleter statuses.now header.now result }
{
    if header.xmax.0 == 0 {
        return None;
    }
    Some(DeletedBy {
        id: header.xmax,
        status: statuses.status(header.xmax),
    })
}

/// The fate of the version in a slot.
fn version_fate(
    page: &Page,
    number: u16,
    header: &Header,
    statuses: &StatusTable,
    horizon: Xid,
) -> VersionFate
    requires { header_fault header.now ≡ None }
    ensures { IsVersionFate statuses.now horizon.0 page.now.slots number header.now result }
{
    if !header.is_frozen() && statuses.is_aborted(header.xmin) {
        return VersionFate::RolledBack(header.xmin);
    }
    if statuses.is_committed(header.xmax) && precedes(header.xmax, horizon) {
        return VersionFate::Deleted(header.xmax);
    }
    match last_dead(page, number, statuses, horizon) {
        Some(later) => VersionFate::GoesWith(later),
        None => VersionFate::Kept(deleter_of(header, statuses)),
    }
}

/// The fate of a slot: what pruning at this horizon would do to it now. It takes no memory.
pub fn slot_fate(page: &Page, number: u16, statuses: &StatusTable, horizon: Xid) -> SlotFate
    ensures { IsFate statuses.now horizon.0 page.now.slots number result }
{
    match page.slot(number) {
        None => SlotFate::NoSlot,
        Some(Slot::Unused) => SlotFate::Unused,
        Some(Slot::Dead) => SlotFate::Dead,
        Some(Slot::Redirect(target)) => SlotFate::Redirect(target),
        Some(Slot::Normal(version)) => SlotFate::Version(version_fate(
            page,
            number,
            &version.header,
            statuses,
            horizon,
        )),
    }
}
