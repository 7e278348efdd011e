//! The engine as its callers have it. Its parts are private to the crate. So what asks only one of them is a call here too.

ghost use Rattle.std.specs.Prelude.{◌≡◌, ◌<◌, length, slice_get, option_copied, IfOk, IfErr, OnOk, MatchResult, Some};
ghost use Rattle.std.specs.Option.{option_map, is_some};
ghost use Rattle.commit_status.specs.Window.{next_id};
ghost use Rattle.space_maps.specs.View.{mark_on};
ghost use Rattle.history.specs.World.{World, OpenSession, view, world_sessions};
ghost use Rattle.calls.specs.Words.{AreSettings, FirstFault};
ghost use Rattle.calls.specs.Bars.{BarsOpen};
ghost use Rattle.session_steps.specs.State.{engine_index, bits_of};
ghost use Rattle.session_steps.specs.Agrees.{Agrees};
ghost use Rattle.vacuum_passes.specs.View.{disturbed};
ghost use Rattle.calls.specs.Steps.{session_of};
ghost use Rattle.vacuum_engine.specs.Exact.{EngineExact};
ghost use Rattle.vacuum_engine.specs.Clauses.{EngineFollows};
ghost use Rattle.session_core.specs.Clauses.{WaitingFollows, WaitingExact, IsNewWaiting};
ghost use Rattle.session_core.specs.Notes.{gives_back};
ghost use Rattle.session_core.specs.NextRows.{EngineNextRows};

use calls::{Refusal, Reply, Row, Settings, SettingsFault, Step};
use page_slots::Page;
use root_index::RootIndex;
use session_steps::SessionEngine;
use status_cache::StatusCache;
use std::alloc::Global;
use std::marker::Model;
use tuple_header::RowPlace;
use vacuum_passes::Vacuum;
use waits::Waits;
use xid_circle::Xid;

/// A table with its sessions, at most 64 open at a time, and a vacuum. It also keeps who waits for whom, and a cache of the
/// statuses of ids asked for last, which agrees with the table after each step.
#[derive(Drop)]
pub struct Engine {
    pub(crate) alloc: Global,
    pub(crate) core: SessionEngine,
    pub(crate) vacuum: Option<Vacuum>,
    pub(crate) waits: Waits,
    // made when an id is first asked for, if there is memory for it
    pub(crate) cache: Option<StatusCache>,
}

impl Model for Engine {
    ghost use Rattle.session_core.specs.State.{WaitingView};
    ghost use Rattle.status_cache.specs.Held.{KeepsCache};

    ghost Value = { WaitingView };

    ghost view = { λ e. record {
      engine = record { core = e.core; vacuum = e.vacuum };
      waits = e.waits;
    } };

    ghost invariant = { λ e. KeepsCache e.cache e.core.heap.statuses };
}

/// True where a step is a session's, open or not.
fn is_session(step: &Step) -> bool
    ensures { result ≡ is_some (session_of step.now) }
{
    match step {
        Step::Prune(_)
        | Step::ApplyPlan(_, _)
        | Step::VacuumBegin(_)
        | Step::VacuumStep
        | Step::VacuumCancel
        | Step::CreateIndex(_) => false,
        _ => true,
    }
}

/// The session whose step it is, open or not.
fn session_of(step: &Step) -> Option<u8>
    ensures { result ≡ session_of step.now }
{
    match step {
        Step::Begin(s)
        | Step::BeginReadCommitted(s)
        | Step::Get(s, _)
        | Step::Insert(s, _)
        | Step::Update(s, _)
        | Step::Delete(s, _)
        | Step::Savepoint(s)
        | Step::RollbackTo(s)
        | Step::Release(s)
        | Step::Commit(s)
        | Step::Abort(s)
        | Step::OpenIndex(s, _, _, _)
        | Step::OpenHeap(s)
        | Step::OpenKeys(s, _, _)
        | Step::Next(s, _)
        | Step::Close(s)
        | Step::TakePage(s, _) => Some(*s),
        Step::Prune(_)
        | Step::ApplyPlan(_, _)
        | Step::VacuumBegin(_)
        | Step::VacuumStep
        | Step::VacuumCancel
        | Step::CreateIndex(_) => None,
    }
}

/// True where a step gives back the keys of a level, or of all, if it is done.
fn gives_back(step: &Step) -> bool
    ensures { result ≡ gives_back step.now }
{
    matches!(step, Step::RollbackTo(_) | Step::Commit(_) | Step::Abort(_))
}

impl Engine {
    /// An engine of these settings, without sessions, pages, entries or a vacuum. The fault names the first setting that is out of
    /// its range, or memory.
    pub fn new(alloc: Global, settings: Settings) -> Result<Engine, SettingsFault>
        ensures new { IfOk result (λ e. IsNewWaiting settings e) }
        ensures fault { IfErr result (λ fault. FirstFault settings fault) }
        ensures valid { OnOk result (AreSettings settings) }
    {
        match SessionEngine::new(alloc, settings) {
            Ok(core) => {
                let waits = Waits::new();
                Ok(Engine {
                    alloc,
                    core,
                    vacuum: None,
                    waits,
                    cache: None,
                })
            }
            Err(fault) => Err(fault),
        }
    }

    /// Does one step, and gives its reply. Whatever world of the history the engine agrees with, the history allows the reply. The engine
    /// agrees with the world after it, where the same sessions wait. No index entry leads to a slot that was given to another row. A
    /// vacuum that ends leaves nothing that was dead before the horizon of its beginning. A step that is refused names the first reason
    /// that holds, in the order of the table in docs/rules.md, or NoMemory, as is said below that table.
    pub fn step(&mut self, step: Step) -> Reply
        ensures follows { WaitingFollows self.old step result self.new }
        ensures exact { WaitingExact self.old step result self.new }
    {
        let mut reply = Reply::Done;
        self.step_into(step, &mut reply);
        reply
    }

    /// Does one step as [`Engine::step`] does, and puts its reply in the place of an earlier one. A reply has room for a row, over a
    /// kilobyte; who does many steps needs one alone. The earlier one is dropped only when the new one is there, so the rows of two
    /// answers of a cursor may be in memory at once.
    #[inline(always)]
    pub fn step_into(&mut self, step: Step, reply: &mut Reply)
        ensures follows { WaitingFollows self.old step reply.new self.new }
        ensures exact { WaitingExact self.old step reply.new self.new }
    {
        let session = session_of(&step);
        let gives = gives_back(&step);
        self.step_below(step, reply);
        let Some(s) = session else {
            return;
        };
        self.note(s, gives, reply);
    }

    /// Does one step, and leaves it to the caller to note who waits for whom.
    #[inline(always)]
    fn step_below(&mut self, step: Step, reply: &mut Reply)
        ensures follows { EngineFollows self.old.engine step reply.new self.new.engine }
        ensures exact { EngineExact self.old.engine step reply.new self.new.engine }
        ensures waits { self.new.waits ≡ self.old.waits }
    {
        self.core.fact_set_up();
        match step {
            Step::VacuumBegin(mode) => self.begin_vacuum(mode, reply),
            Step::VacuumStep => self.step_vacuum(reply),
            Step::VacuumCancel => self.cancel_vacuum(reply),
            Step::CreateIndex(column) => self.create_index(column, reply),
            step => {
                self.disturb(is_session(&step));
                self.core.step_into(step, reply)
            }
        }
    }

    /// Notes in the vacuum that is running, if one is, that a step came which is not its own, and whether it is a session's.
    pub(crate) fn disturb(&mut self, session: bool)
        ensures core { self.new.engine.core ≡ self.old.engine.core }
        ensures vacuum { self.new.engine.vacuum
            ≡ option_map (disturbed session) self.old.engine.vacuum }
        ensures waits { self.new.waits ≡ self.old.waits }
    {
        if let Some(vacuum) = &mut self.vacuum {
            vacuum.disturb(session);
        }
    }

    /// Writes the next rows of the session's cursor to the first places, and answers how many there are: none exactly where nothing
    /// is left. It is answered as `Step::Next` of as many rows as there are places. But of the heap it hands out up to so many rows
    /// of the next page, and the next call hands out what that page has left over. And it takes no memory. Places behind the rows,
    /// and the bytes behind each body, stay as they were. Of a cursor over keys the key alone is written, and all else in its place
    /// stays. Refusals in order: NoSuchSession, NotOpen, Failed, NoCursor.
    pub fn next_rows(&mut self, s: u8, places: &mut [RowPlace]) -> Result<usize, Refusal>
        requires { 0 < length places.old }
        ensures { EngineNextRows self.old s places.old result places.new self.new }
    {
        self.disturb(true);
        self.waits.end(s);
        self.core.next_rows(s, places)
    }

    /// The row of the key that the session reads, also in a transaction that has failed. It is no step, and takes no
    /// memory. Refusals in order: NoSuchSession, NotOpen.
    pub fn read(&self, s: u8, key: u64) -> Result<Option<Row>, Refusal>
        ensures { (w : World) → Agrees self.now.engine.core w → MatchResult result
            (λ row. (m : OpenSession) × (w.session s ≡ Some m) × (row ≡ view w.history m key))
            (λ refusal. BarsOpen (world_sessions w) s refusal) }
    {
        self.core.read(s, key)
    }

    /// Forgets where keys were put, and notes it from now on, or never. A new engine notes it, so that a get need not search the index;
    /// it takes some 8 to 16 bytes of memory a row. No answer changes, and this is no step. It takes no memory.
    pub fn keep_places(&mut self, are_wanted: bool)
        ensures { self.new ≡ self.old }
    {
        self.core.keep_places(are_wanted)
    }

    /// The next id to be given, and the oldest that is remembered.
    pub fn ids(&self) -> (Xid, Xid)
        ensures next { result.0.0 ≡ next_id self.now.engine.core.heap.statuses }
        ensures first { result.1.0 ≡ self.now.engine.core.heap.statuses.first }
    {
        self.core.ids()
    }

    /// The page of this number, counted from 0, if it is in use.
    pub fn page(&self, number: u32) -> Option<&Page>
        ensures { option_copied result ≡ slice_get self.now.engine.core.heap.pages.pages number }
    {
        self.core.page(number)
    }

    /// The index of this number, if there is one. Index 0 is the primary index, by key. Index `c + 1` is that of column
    /// `c`, where the settings ask for it or since it was made.
    pub fn index(&self, number: u8) -> Option<&RootIndex>
        ensures { option_copied result ≡ engine_index self.now.engine.core number }
    {
        self.core.index(number)
    }

    /// The visibility map's bits of the page, if it is in use: 1 where it is all-visible, 2 where it is all-frozen too, else 0.
    pub fn page_bits(&self, number: u32) -> Option<u8>
        ensures { result
            ≡ option_map (λ _. bits_of (mark_on self.now.engine.core.heap.pages.marks number))
            (slice_get self.now.engine.core.heap.pages.pages number) }
    {
        self.core.page_bits(number)
    }
}
