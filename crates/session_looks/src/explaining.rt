//! Why a session finds what it finds, and why a version is still there.

ghost use Rattle.std.specs.Prelude.{◌≡◌, Some, None, MatchOption, MatchResult, slice_get};
ghost use Rattle.calls.specs.Bars.{BarsOpen};
ghost use Rattle.index_lookup.specs.Pages.{slots_on};
ghost use Rattle.heap_write.specs.Heap.{slots_of};
ghost use Rattle.slot_fates.specs.Fates.{IsFate};
ghost use Rattle.session_steps.specs.State.{session_at, engine_sessions, horizon_of};
ghost use Rattle.session_looks.specs.Explaining.{IsNextEntry, IsExplained, IsPlanNow};

use calls::Refusal;
use explanations::{ShownVersion, next_place, shown_version};
use page_slots::Page;
use prune::PrunePlan;
use session_steps::{Session, SessionEngine};
use slot_fates::SlotFate;
use xid_circle::Tid;

/// The place to which the next entry of the key leads, in the order of the index by key. The next entry is the first after the
/// entry that leads to a place, still there or not, or the first of all.
pub fn next_entry(engine: &SessionEngine, key: u64, after: Option<Tid>) -> Option<Tid>
    ensures { IsNextEntry engine.now key after result }
{
    match engine.heap().index(0) {
        Some(index) => next_place(index, key, after),
        None => None,
    }
}

/// The version at a place of the chain to which an entry leads on this page, counted from 0, if the chain is so long. The
/// answer also says why a statement of an open session, begun now, sees it, or does not.
fn explain_on(
    engine: &SessionEngine,
    session: &Session,
    page: &Page,
    place: Tid,
    n: usize,
) -> Option<ShownVersion>
    requires { slice_get engine.now.heap.pages.pages place.page ≡ Some page.now }
    ensures { IsExplained engine.now session.now place n result }
{
    let mut kept = None;
    let reader = engine.reader(session, &mut kept);
    shown_version(page, place.slot, n, &reader)
}

/// As above, on any page. A page that is not in use has no chains.
fn explain_to(
    engine: &SessionEngine,
    session: &Session,
    place: Tid,
    n: usize,
) -> Option<ShownVersion>
    ensures { IsExplained engine.now session.now place n result }
{
    match engine.heap().page(place.page) {
        Some(page) => explain_on(engine, session, page, place, n),
        None => None,
    }
}

/// The version at a place of the chain to which an entry leads, counted from 0, if the chain is so long. The answer also says why a
/// statement of the session, begun now, sees it, or does not. A session that has failed is told too. Refusals in order:
/// NoSuchSession, NotOpen.
pub fn explain(
    engine: &SessionEngine,
    s: u8,
    place: Tid,
    n: usize,
) -> Result<Option<ShownVersion>, Refusal>
    ensures { MatchResult result
        (λ shown. (e : Session) × (session_at engine.now s ≡ Some e)
        × IsExplained engine.now e place n shown)
        (λ refusal. BarsOpen (engine_sessions engine.now) s refusal) }
{
    match engine.open_session(s) {
        Ok(session) => Ok(explain_to(engine, session, place, n)),
        Err(refusal) => Err(refusal),
    }
}

/// The fate of a slot: what pruning would do to it now, if the page is in use.
pub fn slot_fate(engine: &SessionEngine, page: u32, slot: u16) -> Option<SlotFate>
    ensures { MatchOption result (slice_get engine.now.heap.pages.pages page ≡ None)
        (λ fate. IsFate engine.now.heap.statuses (horizon_of engine.now)
        (slots_on (slots_of engine.now.heap) page) slot fate) }
{
    let horizon = engine.horizon();
    let heap = engine.heap();
    match heap.page(page) {
        Some(page) => Some(slot_fates::slot_fate(page, slot, heap.statuses(), horizon)),
        None => None,
    }
}

/// The plan that a pruning of the page would follow now, if the page is in use.
pub fn plan(engine: &SessionEngine, page: u32) -> Option<PrunePlan>
    ensures { MatchOption result (slice_get engine.now.heap.pages.pages page ≡ None)
        (IsPlanNow engine.now page) }
{
    let horizon = engine.horizon();
    let heap = engine.heap();
    match heap.page(page) {
        Some(page) => Some(prune::plan(page, heap.statuses(), horizon)),
        None => None,
    }
}
