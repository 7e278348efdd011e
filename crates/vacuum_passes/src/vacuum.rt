//! A vacuum in progress.

ghost use Rattle.std.specs.Prelude.{◌≡◌, ◌<◌, ◌≤◌, length, MatchOption};
ghost use Rattle.calls.specs.declared.vacuum.Mode.TheVariants.{Normal, Aggressive};
ghost use Rattle.vacuum_passes.specs.View.{new_vacuum, disturbed};

use calls::Mode;
use dead_places::{DeadSet, MOST_PLACES};
use root_index::{Entry, PositionHint};
use std::marker::Model;
use xid_circle::Xid;

/// The phase of a vacuum: the work of its next step.
#[derive(Clone, Copy, Debug, PartialEq, Eq)]
pub enum Phase {
    /// Visits pages.
    Heap,
    /// Goes through this index, after this entry, or from its beginning.
    Index(u8, Option<Entry>),
    /// Frees collected slots.
    Free,
}

/// A vacuum in progress. It holds at most 4096 dead slots at a time.
#[derive(Debug, Drop)]
pub struct Vacuum {
    // Fixed when it began.
    /// Which pages it passes over.
    pub(crate) mode: Mode,
    /// The horizon of that moment.
    pub(crate) horizon: Xid,
    /// It freezes what an id before this one made.
    pub(crate) cutoff: Xid,
    /// How many pages it visits, from page 0 on.
    pub(crate) pages: u32,
    /// How many entries all indexes had.
    pub(crate) entries: u128,
    /// How many dead slots it holds at most.
    pub(crate) limit: u32,

    // Where it is.
    /// The work of its next step.
    pub(crate) phase: Phase,
    /// The next page to visit.
    pub(crate) next: u32,
    /// Where in its index the last piece ended.
    pub(crate) near: PositionHint,

    // Collected so far.
    /// Dead slots, in ascending order of pages and slots.
    pub(crate) store: DeadSet,
    /// How many of them, from the first on, are unused by now.
    pub(crate) freed: usize,

    // Steps of others between its own.
    /// True while there were none.
    pub(crate) alone: bool,
    /// True while none of them was a session's.
    pub(crate) quiet: bool,
    /// How many of its own steps there were while it was alone.
    pub(crate) steps: u64,
}

impl Model for Vacuum {
    ghost use Rattle.std.specs.Prelude.{length, ◌≤◌};
    ghost use Rattle.vacuum_passes.specs.View.{VacuumView};
    ghost use Rattle.vacuum_passes.specs.Keeps.{IsVacuum};
    ghost use Rattle.vacuum_passes.specs.Working.{FreesLast};
    ghost use Rattle.dead_places.specs.declared.dead_set.TheConstants.{MOST_PLACES};

    ghost Value = { VacuumView };

    ghost use Rattle.vacuum_passes.specs.Fields.{seen_as};

    ghost view = { seen_as };

    ghost invariant = { λ v. IsVacuum (seen_as v) × (v.limit ≤ MOST_PLACES)
        × (v.freed ≤ length v.store) × FreesLast v.phase v.freed };
}

impl Vacuum {
    /// A vacuum that begins: it visits so many pages, freezes what committed before `cutoff`, and collects at most `limit`
    /// dead slots at a time, up to 4096. `horizon` is that of this moment, and `entries` is how many the indexes have.
    pub fn new(mode: Mode, horizon: Xid, cutoff: Xid, pages: u32, entries: u128, limit: u32) -> Self
        requires some { 0 < limit }
        requires few { limit ≤ MOST_PLACES }
        ensures { result ≡ new_vacuum mode horizon.0 cutoff.0 pages entries limit }
    {
        Vacuum {
            mode,
            horizon,
            cutoff,
            pages,
            entries,
            limit,
            phase: Phase::Heap,
            near: PositionHint::default(),
            next: 0,
            store: DeadSet::new(),
            freed: 0,
            alone: true,
            quiet: true,
            steps: 0,
        }
    }

    /// The id before which old ids are forgotten at its end, if it is aggressive.
    pub fn forgets_before(&self) -> Option<Xid>
        ensures { MatchOption result (self.now.mode ≡ Normal)
            (λ x. (self.now.mode ≡ Aggressive) × (x.0 ≡ self.now.cutoff)) }
    {
        match self.mode {
            Mode::Normal => None,
            Mode::Aggressive => Some(self.cutoff),
        }
    }

    /// Which pages it passes over.
    pub fn mode(&self) -> Mode
        ensures { result ≡ self.now.mode }
    {
        self.mode
    }

    /// The horizon of its beginning.
    pub fn horizon(&self) -> Xid
        ensures { result.0 ≡ self.now.horizon }
    {
        self.horizon
    }

    /// It freezes what an id before this one made.
    pub fn cutoff(&self) -> Xid
        ensures { result.0 ≡ self.now.cutoff }
    {
        self.cutoff
    }

    /// The work of its next step.
    pub fn phase(&self) -> Phase
        ensures { result ≡ self.now.phase }
    {
        self.phase
    }

    /// The next page that it visits.
    pub fn next(&self) -> u32
        ensures { result ≡ self.now.next }
    {
        self.next
    }

    /// How many slots it has collected that are not freed yet.
    pub fn collected_count(&self) -> usize
        ensures { result ≡ length self.now.store }
    {
        self.store.len() - self.freed
    }

    /// Notes another step than one of the vacuum's own, and whether it was a session's.
    pub fn disturb(&mut self, session: bool)
        ensures { self.new ≡ disturbed session self.old }
    {
        self.alone = false;
        if session {
            self.quiet = false;
        }
    }
}
