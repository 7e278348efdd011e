//! Which slots of a page hold dead versions.

ghost use Rattle.std.specs.Prelude.{◌≡◌, ◌↔◌, ◌⊎◌, ◌+◌, ◌≤◌, ◌<◌, ℕ, true, length, IsTrue, MatchOption};
ghost use Rattle.xid_circle.specs.Circle.{Precedes};
ghost use Rattle.commit_status.specs.Window.{IsAborted, IsCommitted};
ghost use Rattle.visibility.specs.Visible.{IsFrozen, IsDead};
ghost use Rattle.page_sheet.specs.Slots.{SlotIsThere, the_slot, is_undeleted_by};
ghost use Rattle.sound_page.specs.Dead.{IsDeadAt, HasDead};
ghost use Rattle.prune.specs.Deaths.{IsNoLaterThan, IsTurnOf, IsTurnThere, MayDieFrom, NothingDiesBefore, LivesAt};

use commit_status::StatusTable;
use page_slots::Page;
use tuple_header::Header;
use visibility::{Fate, fate_of};
use xid_circle::{Xid, precedes};

/// True where a slot holds a dead version.
pub(crate) fn is_dead_at(page: &Page, number: u16, statuses: &StatusTable, horizon: Xid) -> bool
    ensures { IsTrue result ↔ IsDeadAt statuses.now horizon.0 page.now.slots number }
{
    match page.header(number) {
        Some(header) => matches!(fate_of(&header, horizon, statuses), Fate::Dead),
        None => false,
    }
}

/// The earliest turn of the deleters so far and of this one, if it is remembered, unless it committed before the horizon.
#[inline(always)]
fn earliest_deletion(deleter: Xid, turn: u32, statuses: &StatusTable, horizon: Xid) -> Option<u32>
    ensures { MatchOption result
        (IsCommitted statuses.now deleter.0 × Precedes deleter.0 horizon.0)
        (λ earliest. (¬ (IsCommitted statuses.now deleter.0 × Precedes deleter.0 horizon.0))
        × (earliest ≤ turn) × IsNoLaterThan statuses.now earliest deleter.0
        × ((earliest ≡ turn) ⊎ IsTurnOf statuses.now earliest deleter.0)) }
{
    if deleter.0 == 0 {
        return Some(turn);
    }
    if statuses.is_committed(deleter) && precedes(deleter, horizon) {
        return None;
    }
    match statuses.turn_of(deleter) {
        Some(own) if own < turn => Some(own),
        _ => Some(turn),
    }
}

/// An id that was not aborted, unless the version was rolled back: its inserter, or the one that is known to be such an id.
#[inline(always)]
fn inserter_unless_aborted(header: &Header, known: Xid, statuses: &StatusTable) -> Option<Xid>
    requires { ¬ IsAborted statuses.now known.0 }
    ensures { MatchOption result (¬ IsFrozen header.now × IsAborted statuses.now header.now.xmin.0)
        (λ x. (IsFrozen header.now ⊎ ¬ IsAborted statuses.now header.now.xmin.0)
        × ¬ IsAborted statuses.now x.0) }
{
    if header.xmin.0 == known.0 {
        Some(known)
    } else if !statuses.is_aborted(header.xmin) {
        Some(header.xmin)
    } else if header.is_frozen() {
        Some(known)
    } else {
        None
    }
}

/// A summary of the versions so far, none of which is dead.
#[derive(Clone, Copy, Debug)]
pub(crate) struct Outlook {
    /// An id that was not aborted. Neighbours mostly have one inserter, so its status is looked up once.
    pub(crate) known: Xid,
    /// No deleter that is remembered was given before this turn.
    pub(crate) turn: u32,
}

/// The summary with one more version, unless that is dead.
#[inline(always)]
fn outlook_with(
    header: &Header,
    so_far: Outlook,
    statuses: &StatusTable,
    horizon: Xid,
) -> Option<Outlook>
    requires known { ¬ IsAborted statuses.now so_far.known.0 }
    ensures { MatchOption result (IsDead statuses.now horizon.0 header.now)
        (λ outlook. (¬ IsDead statuses.now horizon.0 header.now)
        × MayDieFrom statuses.now outlook.turn header.now
        × (outlook.turn ≤ so_far.turn) × ¬ IsAborted statuses.now outlook.known.0
        × ((outlook.turn ≡ so_far.turn) ⊎ IsTurnOf statuses.now outlook.turn header.now.xmax.0)) }
{
    let turn = earliest_deletion(header.xmax, so_far.turn, statuses, horizon)?;
    let known = inserter_unless_aborted(header, so_far.known, statuses)?;
    Some(Outlook { known, turn })
}

/// The summary with the version in a slot, if there is one.
#[inline(always)]
fn outlook_after(
    page: &Page,
    number: u16,
    so_far: Outlook,
    statuses: &StatusTable,
    horizon: Xid,
) -> Option<Outlook>
    requires known { ¬ IsAborted statuses.now so_far.known.0 }
    ensures { MatchOption result (IsDeadAt statuses.now horizon.0 page.now.slots number)
        (λ outlook. LivesAt statuses.now horizon.0 outlook.turn page.now.slots number
        × (outlook.turn ≤ so_far.turn) × ¬ IsAborted statuses.now outlook.known.0
        × (IsTurnThere statuses.now so_far.turn page.now.slots
        → IsTurnThere statuses.now outlook.turn page.now.slots)) }
{
    match page.header(number) {
        Some(header) => outlook_with(&header, so_far, statuses, horizon),
        None => Some(so_far),
    }
}

/// Which slot is to be looked at after this one. Where its version has the inserter of one before, its neighbours may have it too.
/// Such a version, if nobody deleted it, is neither dead nor replaced, so a run of them is passed over.
#[inline(always)]
fn number_after(page: &Page, number: u16, before: Xid, known: Xid) -> u16
    requires there { SlotIsThere page.now.slots number }
    ensures forward { number + 1 ≤ result }
    ensures upto { result ≤ length page.now.slots + 1 }
    ensures passed { (n : ℕ) → number + 1 ≤ n → 1 ≤ n → n < result
        → is_undeleted_by known.0 (the_slot page.now.slots n) ≡ true }
{
    let _limit = page.slots();
    if known.0 != before.0 || page.header(number).is_none() {
        return number + 1;
    }
    page.next_unlike(number + 1, known)
}

/// From which turn on a version of a page may be dead. It is None where one is dead at this horizon. Else it is the earliest turn
/// of a deleter that is remembered, or that of the next id where there is none. As long as the horizon has not come past that
/// turn, and none of the inserters is rolled back, no version is dead. It takes no memory.
pub fn first_death(page: &Page, statuses: &StatusTable, horizon: Xid) -> Option<u32>
    ensures { MatchOption result (HasDead statuses.now horizon.0 page.now.slots)
        (λ turn. (¬ HasDead statuses.now horizon.0 page.now.slots)
        × NothingDiesBefore statuses.now turn page.now.slots
        × IsTurnThere statuses.now turn page.now.slots) }
{
    statuses.fact_window();
    // 0 is no id, so it was not aborted.
    let mut outlook = Outlook {
        known: Xid(0),
        turn: statuses.turn_of(statuses.next()).unwrap_or(0),
    };
    let mut number = 1;
    while number <= page.slots() {
        let before = outlook.known;
        match outlook_after(page, number, outlook, statuses, horizon) {
            Some(next) => outlook = next,
            None => return None,
        }
        number = number_after(page, number, before, outlook.known);
    }
    Some(outlook.turn)
}
