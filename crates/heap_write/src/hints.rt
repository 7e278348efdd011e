//! Prune hints at a write: from when on versions on a page may be dead.

ghost use Rattle.std.specs.Prelude.{◌≡◌, IfSome};
ghost use Rattle.commit_status.specs.Window.{IsAborted, turns};
ghost use Rattle.heap_write.specs.Hints.{ExpectsRoot, ExpectsWrite};

use commit_status::{Status, StatusTable};
use space_maps::PruneHints;
use xid_circle::{Tid, Xid};

/// The turn of an id, if it is known and the id was not aborted.
fn live_turn(statuses: &StatusTable, x: Xid) -> Option<u32>
    ensures { IfSome result
        (λ turn. ¬ IsAborted statuses.now x.0 × (turn ≡ turns statuses.now.first x.0)) }
{
    match statuses.status(x) {
        Status::Aborted => None,
        Status::InProgress | Status::Committed => statuses.turn_of(x),
    }
}

/// Lowers what is known of a page, where x deletes the version at this place. That version may be dead from x's turn on. What an
/// aborted id makes is dead at once.
#[inline(always)]
pub(crate) fn expect_write(hints: &mut PruneHints, statuses: &StatusTable, place: Tid, x: Xid)
    ensures { ExpectsWrite statuses.now x.0 place hints.old.pages hints.new.pages }
{
    if hints.turn(place.page).is_none() && hints.doubts(place.page).is_none() {
        return;
    }
    match live_turn(statuses, x) {
        Some(turn) => hints.lower(place.page, turn, place.slot),
        None => hints.end(place.page),
    }
}

/// Ends what is known of the page of this number, on which x makes a root, where x was aborted: then the root is dead at once. Else
/// it has no deleter, and nothing may be dead earlier by it.
pub(crate) fn expect_root(hints: &mut PruneHints, statuses: &StatusTable, number: u32, x: Xid)
    ensures { ExpectsRoot statuses.now x.0 number hints.old.pages hints.new.pages }
{
    if hints.turn(number).is_none() && hints.doubts(number).is_none() {
        return;
    }
    match statuses.status(x) {
        Status::Aborted => hints.end(number),
        Status::InProgress | Status::Committed => (),
    }
}
