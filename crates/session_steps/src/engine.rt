//! The engine and its sessions. The table and the sessions are private to the crate, so what asks one of them is a call here.

ghost use Rattle.std.specs.Prelude.{◌≡◌, ◌≢◌, ◌<◌, length, slice_get, option_copied, IfOk, IfErr, OnOk, MatchResult, Some, None, false};
ghost use Rattle.std.specs.Option.{option_map};
ghost use Rattle.calls.specs.Words.{AreSettings, FirstFault};
ghost use Rattle.calls.specs.Bars.{BarsOpen, BarsReady, BarsFree, BarsWithCursor};
ghost use Rattle.commit_status.specs.Window.{next_id};
ghost use Rattle.space_maps.specs.View.{mark_on};
ghost use Rattle.session_steps.specs.State.{session_at, engine_index, bits_of, engine_sessions};
ghost use Rattle.sessions.specs.Session.{open_bits};
ghost use Rattle.session_steps.specs.Changes.{Opens, Closes};
ghost use Rattle.session_steps.specs.Tests.{MayAct};
ghost use Rattle.session_steps.specs.New.{IsNew};
ghost use Rattle.calls.specs.declared.step.TheConstants.{MOST_SESSIONS};

use calls::{CheckedSettings, Refusal, Settings, SettingsFault};
use commit_status::Status;
use heap_write::HeapState;
use page_slots::Page;
use root_index::RootIndex;
use sessions::{Session, SessionIsolation, Sessions};
use snapshot::OwnIds;
use space_maps::Mark;
use std::alloc::Global;
use std::marker::Model;
use table_scans::CursorScan;
use tuple_header::COLUMNS;
use xid_circle::Xid;

/// A table with its sessions, at most 64 open at a time.
#[derive(Drop)]
pub struct SessionEngine {
    pub(crate) alloc: Global,
    pub(crate) settings: CheckedSettings,
    pub(crate) heap: HeapState,
    pub(crate) sessions: Sessions,
}

impl Model for SessionEngine {
    ghost use Rattle.session_steps.specs.State.{State};
    ghost use Rattle.session_steps.specs.Keeps.{EngineKeeps};

    ghost Value = { State };

    ghost view = { λ e. record { settings = e.settings; heap = e.heap; sessions = e.sessions } };

    ghost invariant = { λ e. EngineKeeps e.sessions e.heap.statuses };
}

/// The bits of a mark, as they are shown.
fn bits_of(mark: Mark) -> u8
    ensures { result ≡ bits_of mark }
{
    match mark {
        Mark::Nothing => 0,
        Mark::AllVisible => 1,
        Mark::AllFrozen => 2,
    }
}

impl SessionEngine {
    /// An engine of these settings, without sessions, pages or entries. The fault names the first setting that is out of its
    /// range, or memory.
    pub fn new(alloc: Global, settings: Settings) -> Result<SessionEngine, SettingsFault>
        ensures new { IfOk result (λ e. IsNew settings e) }
        ensures fault { IfErr result (λ fault. FirstFault settings fault) }
        ensures valid { OnOk result (AreSettings settings) }
    {
        if let Some(fault) = settings.fault() {
            return Err(fault);
        }
        let sessions = match Sessions::new(alloc) {
            Ok(sessions) => sessions,
            Err(_) => return Err(SettingsFault::NoMemory),
        };
        let first = Xid(settings.first_xid);
        Ok(SessionEngine {
            alloc,
            settings: CheckedSettings::new(settings),
            heap: HeapState::new(
                alloc,
                first,
                settings.stop_age,
                settings.max_pages,
                settings.indexed,
            ),
            sessions,
        })
    }

    /// The next id to be given, and the oldest that is remembered.
    pub fn ids(&self) -> (Xid, Xid)
        ensures next { result.0.0 ≡ next_id self.now.heap.statuses }
        ensures first { result.1.0 ≡ self.now.heap.statuses.first }
    {
        let statuses = self.heap.statuses();
        (statuses.next(), statuses.frozen_below())
    }

    /// The table.
    pub fn heap(&self) -> &HeapState
        ensures { result.now ≡ self.now.heap }
    {
        &self.heap
    }

    /// The page of this number, counted from 0, if it is in use.
    pub fn page(&self, number: u32) -> Option<&Page>
        ensures { option_copied result ≡ slice_get self.now.heap.pages.pages number }
    {
        self.heap.page(number)
    }

    /// The index of this number, if there is one. Index 0 is the primary index, by key. Index `c + 1` is that of column
    /// `c`, where the settings ask for it or since it was made.
    pub fn index(&self, number: u8) -> Option<&RootIndex>
        ensures { option_copied result ≡ engine_index self.now number }
    {
        self.heap.index(number)
    }

    /// The visibility map's bits of the page, if it is in use: 1 where it is all-visible, 2 where it is all-frozen too, else 0.
    pub fn page_bits(&self, number: u32) -> Option<u8>
        ensures { result ≡ option_map (λ _. bits_of (mark_on self.now.heap.pages.marks number))
            (slice_get self.now.heap.pages.pages number) }
    {
        match self.page(number) {
            Some(_) => Some(bits_of(self.heap.mark(number).unwrap_or(Mark::Nothing))),
            None => None,
        }
    }

    /// The session, if it is open.
    pub fn open_session(&self, s: u8) -> Result<&Session, Refusal>
        ensures { MatchResult result
            (λ e. (s < MOST_SESSIONS) × (session_at self.now s ≡ Some e.now))
            (λ refusal. BarsOpen (engine_sessions self.now) s refusal) }
    {
        if s >= 64 {
            return Err(Refusal::NoSuchSession);
        }
        match self.sessions.place(s) {
            Some(session) => Ok(session),
            None => Err(Refusal::NotOpen),
        }
    }

    /// The session, if it is open and has not failed.
    pub(crate) fn ready(&self, s: u8) -> Result<&Session, Refusal>
        ensures { MatchResult result
            (λ e. (s < MOST_SESSIONS) × (session_at self.now s ≡ Some e.now)
            × (e.now.failed ≡ false))
            (λ refusal. BarsReady (engine_sessions self.now) s refusal) }
    {
        let session = self.open_session(s)?;
        if session.failed {
            return Err(Refusal::Failed);
        }
        Ok(session)
    }

    /// The session, if it is open, has not failed and has no cursor.
    pub(crate) fn free(&self, s: u8) -> Result<&Session, Refusal>
        ensures { MatchResult result (λ e. MayAct self.now s e.now)
            (λ refusal. BarsFree (engine_sessions self.now) s refusal) }
    {
        let session = self.ready(s)?;
        match session.cursor {
            None => Ok(session),
            Some(_) => Err(Refusal::CursorOpen),
        }
    }

    /// The session and its cursor, if it is open, has not failed and has one.
    pub(crate) fn with_cursor(&self, s: u8) -> Result<(&Session, CursorScan), Refusal>
        ensures { MatchResult result
            (λ found. (s < MOST_SESSIONS) × (session_at self.now s ≡ Some found.0.now)
            × (found.0.now.failed ≡ false) × (found.0.now.cursor ≡ Some found.1))
            (λ refusal. BarsWithCursor (engine_sessions self.now) s refusal) }
    {
        let session = self.ready(s)?;
        match session.cursor {
            Some(cursor) => Ok((session, cursor)),
            None => Err(Refusal::NoCursor),
        }
    }

    /// Opens the session, which reads by its snapshot or by statements.
    pub(crate) fn open(&mut self, s: u8, isolation: SessionIsolation)
        requires within { s < MOST_SESSIONS }
        requires idle { session_at self.old s ≡ None }
        ensures { Opens self.old self.new s isolation }
    {
        *self.sessions.place_mut(s) = Some(Session {
            isolation,
            own: OwnIds::new(self.alloc),
            failed: false,
            cursor: None,
            too_new: [false; COLUMNS],
        });
    }

    /// Closes the session; its ids have the status, which is final, from now on.
    pub(crate) fn close(&mut self, s: u8, status: Status)
        requires within { s < MOST_SESSIONS }
        requires finishes { status ≢ Status.InProgress }
        ensures { Closes self.old self.new s status }
    {
        let place = self.sessions.place_mut(s);
        if let Some(session) = place {
            self.heap.finish(session.own.as_slice(), status);
        }
        *place = None;
    }

    /// How many pages are in use.
    pub fn pages(&self) -> u32
        ensures { result ≡ length self.now.heap.pages.pages }
    {
        self.heap.page_count()
    }

    /// Which sessions are open: a bit for each, the lowest for session 0.
    pub fn open_sessions(&self) -> u64
        ensures { result ≡ open_bits self.now.sessions }
    {
        self.sessions.open_bits()
    }
}
