//! Looks: what an engine holds, and why its sessions see what they see. They are no steps: they change nothing, end no wait and disturb
//! no vacuum, and take no memory. Each is a call of `session_looks`, or of one part of the engine. They are here since the parts are private
//! to the crate.

ghost use Rattle.std.specs.Prelude.{◌≡◌, ◌<◌, ℕ, Some, None, IsSome, slice_get, option_copied, MatchOption, MatchResult};
ghost use Rattle.calls.specs.declared.step.TheConstants.{MOST_SESSIONS};
ghost use Rattle.calls.specs.Bars.{BarsOpen};
ghost use Rattle.commit_status.specs.Window.{IsActive};
ghost use Rattle.index_lookup.specs.Pages.{slots_on};
ghost use Rattle.heap_write.specs.Heap.{slots_of};
ghost use Rattle.slot_fates.specs.Fates.{IsFate};
ghost use Rattle.session_steps.specs.State.{session_at, engine_sessions, horizon_of};
ghost use Rattle.session_looks.specs.Holders.{IsHolder, HasId};
ghost use Rattle.session_looks.specs.Explaining.{IsNextEntry, IsExplained, IsPlanNow};
ghost use Rattle.session_core.specs.State.{wait_at};

use crate::engine::Engine;
use calls::Refusal;
use session_looks::{HorizonHolder, PrunePlan, ShownVersion, SlotFate};
use session_steps::Session;
use vacuum_passes::Vacuum;
use xid_circle::{Tid, Xid};

impl Engine {
    /// The place to which the next entry of the key leads, in the order of the index by key. The next entry is the first after
    /// the entry that leads to a place, still there or not, or the first of all.
    pub fn next_entry(&self, key: u64, after: Option<Tid>) -> Option<Tid>
        ensures { IsNextEntry self.now.engine.core key after result }
    {
        session_looks::next_entry(&self.core, key, after)
    }

    /// The version at a place of the chain to which an entry leads, counted from 0, if the chain is so long. The answer also says why a
    /// statement of the session, begun now, sees it, or does not. A session that has failed is told too. Refusals in order:
    /// NoSuchSession, NotOpen.
    pub fn explain(&self, s: u8, place: Tid, n: usize) -> Result<Option<ShownVersion>, Refusal>
        ensures { MatchResult result
            (λ shown. (e : Session) × (session_at self.now.engine.core s ≡ Some e)
            × IsExplained self.now.engine.core e place n shown)
            (λ refusal. BarsOpen (engine_sessions self.now.engine.core) s refusal) }
    {
        session_looks::explain(&self.core, s, place, n)
    }

    /// The session, if it is open, be it failed or not. Refusals in order: NoSuchSession, NotOpen.
    pub fn session(&self, s: u8) -> Result<&Session, Refusal>
        ensures { MatchResult result
            (λ e. (s < MOST_SESSIONS)
            × (session_at self.now.engine.core s ≡ Some e.now))
            (λ refusal. BarsOpen (engine_sessions self.now.engine.core) s refusal) }
    {
        self.core.open_session(s)
    }

    /// The session that this one waits for, if there is one.
    pub fn wait_of(&self, s: u8) -> Option<u8>
        ensures { result ≡ wait_at self.now s }
    {
        self.waits.of(s)
    }

    /// The horizon: no open session, nor one that begins now, misses what committed before it.
    pub fn horizon(&self) -> Xid
        ensures { result.0 ≡ horizon_of self.now.engine.core }
    {
        self.core.horizon()
    }

    /// The lowest session that holds the horizon back. Where none does, the horizon is the next id.
    pub fn horizon_holder(&self) -> Option<HorizonHolder>
        ensures { IsHolder self.now.engine.core result }
    {
        session_looks::horizon_holder(&self.core)
    }

    /// The open session that has an id, if one has. Each id in progress is a session's, and no other's.
    pub fn owner_of(&self, x: Xid) -> Option<u8>
        ensures owner { MatchOption result ((s : ℕ) → ¬ HasId self.now.engine.core x.0 s)
            (HasId self.now.engine.core x.0) }
        ensures running { IsActive self.now.engine.core.heap.statuses x.0 → IsSome result }
    {
        session_looks::owner_of(&self.core, x)
    }

    /// The fate of a slot: what pruning would do to it now, if the page is in use.
    pub fn slot_fate(&self, page: u32, slot: u16) -> Option<SlotFate>
        ensures { MatchOption result (slice_get self.now.engine.core.heap.pages.pages page ≡ None)
            (λ fate. IsFate self.now.engine.core.heap.statuses (horizon_of self.now.engine.core)
            (slots_on (slots_of self.now.engine.core.heap) page) slot fate) }
    {
        session_looks::slot_fate(&self.core, page, slot)
    }

    /// The plan that a pruning of the page would follow now, if the page is in use.
    pub fn plan(&self, page: u32) -> Option<PrunePlan>
        ensures { MatchOption result (slice_get self.now.engine.core.heap.pages.pages page ≡ None)
            (IsPlanNow self.now.engine.core page) }
    {
        session_looks::plan(&self.core, page)
    }

    /// The vacuum that is running, if one is.
    pub fn vacuum(&self) -> Option<&Vacuum>
        ensures { option_copied result ≡ self.now.engine.vacuum }
    {
        self.vacuum.as_ref()
    }
}
