//! Explanations: the entries of a key, and the versions of the chain of each, with their reasons.

ghost use Rattle.std.specs.Prelude.{◌≡◌, ◌<◌, ◌≤◌, length, IfOk, Some};
ghost use Rattle.tuple_header.specs.declared.version.TheConstants.{MOST_SLOTS};
ghost use Rattle.calls.specs.declared.step.TheConstants.{MOST_SESSIONS};
ghost use Rattle.index_entries.specs.Order.{IsAscending};
ghost use Rattle.index_lookup.specs.Pages.{slots_on};
ghost use Rattle.table_indexes.specs.Indexes.{entries_in};
ghost use Rattle.heap_write.specs.Heap.{slots_of};
ghost use Rattle.session_steps.specs.State.{session_at};
ghost use Rattle.sessions.specs.declared.session.Session.{Session};
ghost use Rattle.viewing.specs.Showing.{IsTouchOwner, AreOwners, AreVersions, IsEntryLook, AreEntryPlaces, IsExplanation};
ghost use Rattle.viewing.specs.Steps.{AreEntryLooks};

use explanations::ShownVersion;
use reasons::Touch;
use script_text::{RefusedGrowth, push_item};
use session_core::Engine;
use std::alloc::Global;
use view_text::{EntryLook, VersionLook};
use xid_circle::Tid;

// The session that has the id of who made or deleted a version, if one has.
fn owner_of(engine: &Engine, touch: Option<Touch>) -> Option<u8>
    ensures { IsTouchOwner engine.now.engine.core touch result }
{
    match touch {
        None => None,
        Some(by) => engine.owner_of(by.id),
    }
}

// A version with the sessions that have its ids.
fn version_look(engine: &Engine, shown: ShownVersion) -> VersionLook
    ensures shown { result.shown ≡ shown }
    ensures owners { AreOwners engine.now.engine.core result }
{
    VersionLook {
        shown,
        maker_session: owner_of(engine, shown.verdict.maker),
        deleter_session: owner_of(engine, shown.verdict.deleter),
    }
}

// A page has at most 291 slots; where it is not in use it has none. It does nothing.
fn fact_few_slots(engine: &Engine, page: u32)
    ensures { length (slots_on (slots_of engine.now.engine.core.heap) page) ≤ MOST_SLOTS }
{
    match engine.page(page) {
        Some(page) => {
            let _count = page.slots();
        }
        None => {}
    }
}

// The versions of the chain that stands at a place, each as a statement of an open session, begun now, sees it. A chain has at most 292
// of them.
fn versions_at(
    alloc: Global,
    engine: &Engine,
    s: u8,
    place: Tid,
) -> Result<Vec<VersionLook>, RefusedGrowth>
    requires { s < MOST_SESSIONS }
    ensures { IfOk result
        (λ v. (e : Session) → session_at engine.now.engine.core s ≡ Some e
        → AreVersions engine.now.engine.core e place v.items) }
{
    fact_few_slots(engine, place.page);
    let mut versions = Vec::new(alloc);
    for n in 0..293usize {
        match engine.explain(s, place, n) {
            Ok(Some(shown)) => push_item(&mut versions, version_look(engine, shown))?,
            Ok(None) => return Ok(versions),
            // the session is open, so this never comes
            Err(_) => return Ok(versions),
        }
    }
    Ok(versions)
}

// How many entries the index by key has.
fn entry_count(engine: &Engine) -> u64
    ensures count { result ≡ length (entries_in engine.now.engine.core.heap.indexes 0) }
    ensures ascending { IsAscending (entries_in engine.now.engine.core.heap.indexes 0) }
{
    match engine.index(0) {
        Some(index) => {
            index.fact_ascending();
            index.len()
        }
        None => 0,
    }
}

// The places to which the entries of a key lead, in the order of the index by key.
fn places_of(alloc: Global, engine: &Engine, key: u64) -> Result<Vec<Tid>, RefusedGrowth>
    ensures { IfOk result (λ v. AreEntryPlaces engine.now.engine.core key v.items) }
{
    let mut places = Vec::new(alloc);
    let mut next = engine.next_entry(key, None);
    for _ in 0..entry_count(engine) {
        let Some(place) = next else {
            return Ok(places);
        };
        push_item(&mut places, place)?;
        next = engine.next_entry(key, Some(place));
    }
    Ok(places)
}

// An entry that leads to this place, and the versions of the chain there.
fn entry_look(alloc: Global, engine: &Engine, s: u8, place: Tid) -> Result<EntryLook, RefusedGrowth>
    requires { s < MOST_SESSIONS }
    ensures place { IfOk result (λ look. look.place ≡ place) }
    ensures look { IfOk result
        (λ look. (e : Session) → session_at engine.now.engine.core s ≡ Some e
        → IsEntryLook engine.now.engine.core e look) }
{
    Ok(EntryLook {
        place,
        leads: engine.slot_fate(place.page, place.slot),
        versions: versions_at(alloc, engine, s, place)?,
    })
}

// The entries that lead to these places.
fn entry_looks(
    alloc: Global,
    engine: &Engine,
    s: u8,
    places: &[Tid],
) -> Result<Vec<EntryLook>, RefusedGrowth>
    requires { s < MOST_SESSIONS }
    ensures { IfOk result
        (λ v. (e : Session) → session_at engine.now.engine.core s ≡ Some e
        → AreEntryLooks engine.now.engine.core e places.now v.items) }
{
    let mut looks = Vec::new(alloc);
    for place in places {
        let look = entry_look(alloc, engine, s, *place)?;
        push_item(&mut looks, look)?;
    }
    Ok(looks)
}

/// The entries of a key, in their order, each with the versions of its chain.
pub fn explanation(
    alloc: Global,
    engine: &Engine,
    s: u8,
    key: u64,
) -> Result<Vec<EntryLook>, RefusedGrowth>
    requires { s < MOST_SESSIONS }
    ensures { IfOk result
        (λ v. (e : Session) → session_at engine.now.engine.core s ≡ Some e
        → IsExplanation engine.now.engine.core e key v.items) }
{
    let places = places_of(alloc, engine, key)?;
    entry_looks(alloc, engine, s, places.as_slice())
}
