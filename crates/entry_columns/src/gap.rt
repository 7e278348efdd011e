//! Places to which no entry leads.

ghost use Rattle.std.specs.Prelude.{◌≡◌, ◌<◌, ◌≤◌, Contains};
ghost use Rattle.std.specs.Bool.{OnTrue};
ghost use Rattle.xid_circle.specs.declared.Tid.{Tid as Place};
ghost use Rattle.dead_places.specs.Places.{AreAscending};
ghost use Rattle.entry_columns.specs.Gaps.{IsInside};

use crate::columns::{is_dead, span_of};
use crate::short_tid::{PAGES, ShortTid};
use dead_places::DeadSet;
use xid_circle::Tid;

/// All places of pages in a row, but for one place. So a leaf that loses no entry is passed over where one entry of it leads among dead
/// places, and not only where none does.
#[derive(Clone, Copy, Debug)]
pub struct Gap {
    /// The first page.
    from: u16,
    /// The page behind the last.
    to: u16,
    /// The place that is none of them.
    but: ShortTid,
}

/// All places but those of the last page. (`between` is private to the crate: a leaf names no numbers.)
pub fn all_places() -> Gap
    ensures from { result.from ≡ 0 }
    ensures to { result.to ≡ 65535 }
    ensures but { result.but.number ≡ 4294967295 }
{
    between(0, u16::MAX, u32::MAX)
}

/// The places from this page on, up to another, but for that of a number.
pub(crate) fn between(from: u16, to: u16, but: u32) -> Gap
    ensures from { result.from ≡ from }
    ensures to { result.to ≡ to }
    ensures but { result.but.number ≡ but }
{
    Gap {
        from,
        to,
        but: ShortTid::of_number(but),
    }
}

/// Of these places those on pages before this one's, where it is one of them.
#[inline(always)]
pub fn without(gap: Gap, tid: Tid) -> Gap
    requires { tid.page < PAGES }
    ensures out { ¬ IsInside result tid }
    ensures kept { (t : Place) → IsInside result t → IsInside gap t }
{
    let page = tid.page as u16;
    if page < gap.from {
        return gap;
    }
    between(gap.from, gap.to.min(page), gap.but.number())
}

/// Whether all dead places are in the gap.
#[inline(always)]
pub fn holds(gap: Gap, dead: &DeadSet) -> bool
    ensures { OnTrue result ((t : Place) → Contains dead.now t → IsInside gap t) }
{
    dead.fact_ascending();
    let tids = dead.as_slice();
    if !begin_from(tids, gap.from) {
        return false;
    }
    if !end_before(tids, gap.to) {
        return false;
    }
    !is_dead(dead, span_of(dead), gap.but)
}

/// Whether none of these places is on a page before this one.
#[inline(always)]
fn begin_from(tids: &[Tid], page: u16) -> bool
    requires { AreAscending tids.now }
    ensures { OnTrue result ((t : Place) → Contains tids.now t → page ≤ t.page) }
{
    match tids.first() {
        Some(first) => u32::from(page) <= first.page,
        None => true,
    }
}

/// Whether all of these places are on pages before this one.
#[inline(always)]
fn end_before(tids: &[Tid], page: u16) -> bool
    requires { AreAscending tids.now }
    ensures { OnTrue result ((t : Place) → Contains tids.now t → t.page < page) }
{
    match tids.last() {
        Some(last) => last.page < u32::from(page),
        None => true,
    }
}
