//! A page is visited.

ghost use Rattle.std.specs.Prelude.{◌≡◌, ◌<◌, ◌≤◌, ◌+◌, ◌-◌, ◌++◌, nat_lt, length, take, Contains, if◌then◌else◌};
ghost use Rattle.std.specs.List.{AllPairs};
ghost use Rattle.xid_circle.specs.declared.Tid.{Tid as Place};
ghost use Rattle.vacuum_passes.specs.View.{places, phase_with};
ghost use Rattle.vacuum_passes.specs.Working.{VisitsFrom};

use crate::vacuum::Phase;
use dead_places::{DeadSet, MOST_PLACES};
use heap_write::HeapState;
use xid_circle::{Tid, Xid};

/// Cleans the page of this number, and collects its dead slots, up to so many places in all. It answers which page and which phase
/// come next.
pub(crate) fn clean_and_collect(
    heap: &mut HeapState,
    store: &mut DeadSet,
    number: u32,
    horizon: Xid,
    cutoff: Xid,
    limit: usize,
) -> (u32, Phase)
    requires in_use { number < length heap.old.pages.pages }
    requires next { number < 4294967295 }
    requires few { length store.old ≤ limit }
    requires limit { limit ≤ MOST_PLACES }
    requires below { (tid : Place) → Contains store.old tid → tid.page < number }
    ensures { VisitsFrom heap.old heap.new horizon.0 cutoff.0 number limit store.old store.new
        result.0 result.1 }
{
    let dead = heap.clean(number, cutoff, horizon);
    let left_over = collect(store, number, dead.as_slice(), limit);
    (page_after(number, left_over), phase_after(store, limit))
}

/// The page to visit after this one: the same, if slots are left over.
fn page_after(number: u32, left_over: bool) -> u32
    requires { number < 4294967295 }
    ensures { result ≡ (if left_over then number else number + 1) }
{
    if left_over { number } else { number + 1 }
}

/// The next phase after a visit: the indexes, where the store is full.
fn phase_after(store: &DeadSet, limit: usize) -> Phase
    ensures { result ≡ phase_with limit store.now }
{
    if store.len() == limit {
        Phase::Index(0, None)
    } else {
        Phase::Heap
    }
}

/// Collects these slots of a page, in ascending order, up to so many places in all. It answers whether some are left over.
fn collect(store: &mut DeadSet, number: u32, dead: &[u16], limit: usize) -> bool
    requires few { length store.old ≤ limit }
    requires limit { limit ≤ MOST_PLACES }
    requires below { (tid : Place) → Contains store.old tid → tid.page < number }
    requires ascending { AllPairs (λ a b. a < b) dead.now }
    ensures store { store.new
        ≡ store.old ++ places number (take (limit - length store.old) dead.now) }
    ensures left { result ≡ nat_lt (limit - length store.old) (length dead.now) }
{
    for slot in dead {
        if store.len() >= limit {
            return true;
        }
        store.insert(Tid {
            page: number,
            slot: *slot,
        });
    }
    false
}
