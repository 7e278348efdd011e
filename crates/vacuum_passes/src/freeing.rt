//! The collected slots of a page become unused.

ghost use Rattle.std.specs.Prelude.{◌≡◌, ◌≢◌, ◌<◌, ◌≤◌, ◌+◌, [], length, map, take, drop, Contains};
ghost use Rattle.std.specs.List.{AllPairs};
ghost use Rattle.xid_circle.specs.declared.Tid.{Tid as Place};
ghost use Rattle.dead_places.specs.Places.{AreAscending};
ghost use Rattle.vacuum_passes.specs.Steps.{on_page, off_page, phase_left, IsLowest};
ghost use Rattle.vacuum_passes.specs.Working.{FreesPage, FreesLast};

use crate::vacuum::Phase;
use dead_places::{DeadSet, MOST_PLACES};
use heap_write::HeapState;
use xid_circle::{Tid, Xid};

/// Makes those of the places from this number on unused that are on the lowest page, and then notes that page's exact mark. It answers
/// the page, and how many places are on it.
pub(crate) fn free_from(
    heap: &mut HeapState,
    store: &DeadSet,
    freed: usize,
    horizon: Xid,
) -> (u32, usize)
    requires some { freed < length store.now }
    ensures within { freed + result.1 ≤ length store.now }
    ensures limit { freed + result.1 ≤ MOST_PLACES }
    ensures lowest { IsLowest (drop freed store.now) result.0 }
    ensures left { drop (freed + result.1) store.now ≡ off_page result.0 (drop freed store.now) }
    ensures frees { result.0 < length heap.old.pages.pages
        → FreesPage heap.old heap.new horizon.0 result.0 (on_page result.0 (drop freed store.now)) }
    ensures drops { length heap.old.pages.pages ≤ result.0 → heap.new ≡ heap.old }
{
    store.fact_ascending();
    let _limit = store.len();
    let (_, places) = store.as_slice().split_at(freed);
    free_lowest(heap, places, horizon)
}

/// The next phase after the first `freed` slots of the store were freed: once it holds no others it is emptied, and pages are
/// visited again. It answers as well how many places of freed slots the store has then.
pub(crate) fn after_freeing(store: &mut DeadSet, freed: usize) -> (usize, Phase)
    requires { freed ≤ length store.old }
    ensures shown { drop result.0 store.new ≡ drop freed store.old }
    ensures phase { result.1 ≡ phase_left (drop freed store.old) }
    ensures within { result.0 ≤ length store.new }
    ensures last { FreesLast result.1 result.0 }
{
    if freed == store.len() {
        store.clear();
        return (0, Phase::Heap);
    }
    (freed, Phase::Free)
}

/// Makes those of these places unused that are on the lowest page, and then notes that page's exact mark. It answers the page, and how
/// many places are on it.
fn free_lowest(heap: &mut HeapState, places: &[Tid], horizon: Xid) -> (u32, usize)
    requires some { places.now ≢ [] }
    requires ascending { AreAscending places.now }
    ensures within { result.1 ≤ length places.now }
    ensures lowest { IsLowest places.now result.0 }
    ensures left { drop result.1 places.now ≡ off_page result.0 places.now }
    ensures frees { result.0 < length heap.old.pages.pages
        → FreesPage heap.old heap.new horizon.0 result.0 (on_page result.0 places.now) }
    ensures drops { length heap.old.pages.pages ≤ result.0 → heap.new ≡ heap.old }
{
    let page = lowest_page(places);
    let count = count_on(places, page);
    let (here, _) = places.split_at(count);
    if page < heap.page_count() {
        free_page(heap, page, here, horizon);
    }
    (page, count)
}

/// The lowest page with one of these places.
fn lowest_page(places: &[Tid]) -> u32
    requires some { places.now ≢ [] }
    requires ascending { AreAscending places.now }
    ensures { IsLowest places.now result }
{
    match places.first() {
        Some(first) => first.page,
        None => 0,
    }
}

/// Makes these slots of the page of this number unused, those that are dead, and then notes the page's exact mark.
fn free_page(heap: &mut HeapState, number: u32, places: &[Tid], horizon: Xid)
    requires in_use { number < length heap.old.pages.pages }
    requires ascending { AllPairs (λ a b. a < b) (map (λ (tid : Place). tid.slot) places.now) }
    ensures { FreesPage heap.old heap.new horizon.0 number places.now }
{
    heap.free(number, places);
    heap.note(number, horizon);
}

/// How many of these places are on this page, the first on which one is.
fn count_on(places: &[Tid], page: u32) -> usize
    requires ascending { AreAscending places.now }
    requires lowest { (tid : Place) → Contains places.now tid → page ≤ tid.page }
    ensures within { result ≤ length places.now }
    ensures here { take result places.now ≡ on_page page places.now }
    ensures others { drop result places.now ≡ off_page page places.now }
{
    for (number, place) in places.iter().enumerate() {
        if place.page != page {
            return number;
        }
    }
    places.len()
}
