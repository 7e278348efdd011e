//! A vacuum of the engine's table: its beginning, its steps, and what is forgotten at its end.

ghost use Rattle.std.specs.Prelude.{◌≡◌, IsTrue, ◌↔◌, length};
ghost use Rattle.std.specs.Option.{option_map};
ghost use Rattle.commit_status.specs.Window.{IsUpToNext};
ghost use Rattle.forgetting.specs.Cutoffs.{aged, cutoff_at};
ghost use Rattle.calls.specs.declared.step.TheConstants.{MOST_SESSIONS};
ghost use Rattle.session_steps.specs.Keeps.{OwnIdsKeep};
ghost use Rattle.session_steps.specs.Vacuums.{IsSetUp, vacuum_begun, VacuumWorks, MayForget, Forgets};

use crate::engine::SessionEngine;
use calls::{Mode, Piece};
use commit_status::StatusTable;
use sessions::own_from;
use snapshot::earlier;
use vacuum_passes::Vacuum;
use xid_circle::{Xid, precedes};

/// The id given so long before the next one; a number that is no transaction's counts as 3.
fn id_before(next: Xid, age: u32) -> Xid
    ensures { result.0 ≡ aged next.0 age }
{
    Xid(next.0.wrapping_sub(age).max(3))
}

/// A vacuum marks as frozen only what was made before this id. It is the earlier of the horizon and of the id given so long
/// before the next one. It is never before the first, the oldest that is remembered. (vacuum_freeze_min_age in the manual's
/// "Routine Vacuuming".)
fn cutoff(first: Xid, next: Xid, horizon: Xid, age: u32) -> Xid
    ensures { result.0 ≡ cutoff_at first.0 next.0 horizon.0 age }
{
    let cutoff = earlier(horizon, id_before(next, age));
    if precedes(cutoff, first) {
        first
    } else {
        cutoff
    }
}

/// True where the id is remembered or the next.
fn is_up_to_next(statuses: &StatusTable, x: Xid) -> bool
    ensures { IsTrue result ↔ IsUpToNext statuses.now x.0 }
{
    statuses.fact_window();
    x.0 == statuses.next().0 || statuses.remembers(x)
}

impl SessionEngine {
    /// The settings are in their ranges, and the indexes are those that the engine was made with. Each own id of an open session is
    /// in progress, there once, and no other's, and each id in progress is a session's. There are 64 places for sessions. It does
    /// nothing; its contract is the fact.
    pub fn fact_set_up(&self)
        ensures set_up { IsSetUp self.now }
        ensures own_ids { OwnIdsKeep self.now.sessions self.now.heap.statuses }
        ensures count { length self.now.sessions ≡ MOST_SESSIONS }
    {
        self.heap.fact_indexes();
        let _limit = self.settings.dead_limit();
    }

    /// A vacuum that begins now: it visits the pages that are in use, and freezes what committed before the cutoff of this moment.
    pub fn new_vacuum(&self, mode: Mode) -> Vacuum
        ensures { result ≡ vacuum_begun mode self.now }
    {
        let horizon = self.horizon();
        let statuses = self.heap.statuses();
        let age = self.settings.freeze_min_age();
        Vacuum::new(
            mode,
            horizon,
            cutoff(statuses.frozen_below(), statuses.next(), horizon, age),
            self.heap.page_count(),
            self.heap.entries(),
            self.settings.dead_limit(),
        )
    }

    /// Does the next step of the vacuum, and answers what it did; nothing where the vacuum has ended. It takes no memory.
    pub fn vacuum_step(&mut self, vacuum: &mut Vacuum) -> Option<Piece>
        ensures { VacuumWorks self.old self.new vacuum.old
            (option_map (λ _. vacuum.new) result) result }
    {
        // a piece of an index is gone through without a look at the sessions
        match vacuum.step_index(&mut self.heap) {
            Some(piece) => Some(piece),
            None => {
                let horizon = self.horizon();
                vacuum.step(&mut self.heap, horizon)
            }
        }
    }

    /// True where the ids before this one can be forgotten.
    fn may_forget(&self, cutoff: Xid) -> bool
        ensures { IsTrue result ↔ MayForget self.now cutoff.0 }
    {
        let statuses = self.heap.statuses();
        statuses.fact_window();
        is_up_to_next(statuses, cutoff) && own_from(self.sessions.places_in_use(), cutoff)
    }

    /// Forgets the ids before the cutoff, where they can be forgotten, as they can at the end of each aggressive vacuum.
    pub fn forget(&mut self, cutoff: Xid)
        ensures { Forgets self.old self.new cutoff.0 }
    {
        self.heap.statuses().fact_window();
        if self.may_forget(cutoff) {
            self.heap.forget(cutoff);
        }
    }
}
