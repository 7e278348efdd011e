//! The engine, with a judge at its side.

ghost use Rattle.std.specs.Prelude.{◌≡◌, ◌<◌, ◌≤◌, ◌↔◌, IsTrue, IfOk, IfErr, length};
ghost use Rattle.std.specs.Prelude.{option_copied};
ghost use Rattle.side_by_side.specs.Rooms.{PageIsFull, AreFull};
ghost use Rattle.side_by_side.specs.declared.pair.Difference.TheVariants.{NoView};
ghost use Rattle.tuple_header.specs.declared.version.TheConstants.{MOST_BODY};
ghost use Rattle.xid_circle.specs.Circle.{IsNormal, distance_of};

use crate::cuts::{Chains, chains_of, count_cuts};
use crate::hindrance::{Before, agrees_with, hindrance_of_plan, tells_oldest};
use crate::levels::{Levels, horizon_of, session_of_levels, xmin_of};
use crate::look::{are_all_visible, count_slots, first_astray, first_misnoted};
use crate::making::is_exact;
use crate::vacuum::RunningVacuum;
use crate::written::{is_too_large, row_to_write, size_on_page, writer_of};
use judge::{Judge, Ruling};
use page_slots::Page;
use session_core::{Engine, Mode, Refusal, Reply, Row, RowIn, Settings, Step};
use std::alloc::{AllocError, Global};
use xid_circle::{Xid, distance, next};

/// What is not as it has to be.
#[derive(Debug, Drop)]
pub enum Difference {
    /// The history does not allow this reply of the engine.
    Broken(Reply),
    /// The history leaves this reply open, and what hinders the step, if anything does, is another.
    Unhindered(Reply, Option<Refusal>),
    /// The oldest id remembered that a vacuum told at its end, and the one that it has to be.
    Oldest(Reply, Xid),
    /// The engine's next id and the oldest remembered, and those that they have to be.
    Ids((Xid, Xid), (Xid, Xid)),
    /// What this session reads of this key.
    View(u8, u64),
    /// What is noted of this page, and what is on it.
    Noted(u32),
    /// The entries of this index, and the roots that they have to lead to.
    Entries(u8),
    /// The index of this number that was just made, and the rows that have committed.
    Made(u8),
    /// What a vacuum that nobody disturbed left, and the rows.
    NotBare,
    /// No view of a session was compared.
    NoView,
    /// There was no memory to make the comparison.
    NoMemory,
}

/// How a session stands, and whether it reads a row of a key.
#[derive(Clone, Copy)]
pub enum Standing {
    Closed,
    Failed,
    Reads,
    ReadsNone,
}

/// How many views of sessions were compared, and how many rows stand in them.
#[derive(Clone, Copy)]
pub struct Views {
    pub views: u64,
    pub rows: u64,
}

// What a session of the engine reads of a key.
#[derive(Clone, Copy)]
enum Reading {
    // The history does not allow it.
    Broken,
    // It is refused, or reads in a failed session, for which the history has no call.
    Refused,
    NoRow,
    Row,
}

/// An engine, and a judge of what it replies.
#[derive(Drop)]
pub struct Pair {
    engine: Engine,
    judge: Judge,
    settings: Settings,
    // Those of which a view is read.
    keys: &'static [u64],
    views: Views,
    // Those of each session that is open.
    levels: Vec<Levels>,
    // The one that runs, if one does.
    vacuum: Option<RunningVacuum>,
    // How many versions prunings took before they were dead.
    cuts: u64,
    // Which indexes were made in use, by their numbers, and how many.
    made: [bool; 5],
    makings: u64,
}

// Whether from first to next is as far as ids may go.
fn is_at_stop(first: Xid, next: Xid, stop_age: u32) -> bool
    ensures { IsTrue result
        ↔ IsNormal first.0 × IsNormal next.0 × (stop_age ≤ distance_of first.0 next.0) }
{
    first.is_normal() && next.is_normal() && distance(first, next) >= stop_age
}

// The id that is given after so many from this one on.
fn after(x: Xid, count: usize) -> Xid {
    let mut x = x;
    for _ in 0..count {
        if x.is_normal() {
            x = next(x);
        }
    }
    x
}

// Whether of so many ids that would be given, the last is too far from the first.
fn is_short(first: Xid, next: Xid, stop_age: u32, count: usize) -> bool {
    count > 0 && is_at_stop(first, after(next, count - 1), stop_age)
}

fn no_levels(alloc: Global) -> Result<Vec<Levels>, AllocError> {
    let mut levels = Vec::new(alloc);
    for _ in 0..64usize {
        levels.push(Levels::new())?;
    }
    Ok(levels)
}

// Whether the page is in use, and a version of this size does not fit.
fn is_full_page(page: Option<&Page>, size: usize) -> bool
    ensures { IsTrue result ↔ PageIsFull (option_copied page.entry) size }
{
    match page {
        Some(page) => page.room() < size,
        None => false,
    }
}

// What was read, where the history allows it.
fn reading_of(row: &Option<Row>) -> Reading {
    match row {
        Some(_) => Reading::Row,
        None => Reading::NoRow,
    }
}

// The session whose snapshot the step may change, if it may change any.
fn session_of_snapshot(step: &Step) -> Option<u8> {
    match step {
        Step::Begin(s) | Step::BeginReadCommitted(s) => Some(*s),
        Step::OpenIndex(s, _, _, _) | Step::OpenKeys(s, _, _) => Some(*s),
        Step::OpenHeap(s) | Step::Close(s) => Some(*s),
        _ => None,
    }
}

// Whether the session of the step has failed by it.
fn makes_fail(reply: &Reply) -> bool {
    matches!(reply, Reply::Refused(Refusal::Conflict | Refusal::Deadlock))
}

// Whether the step was done. What is read changes nothing, and isn't asked for here.
fn is_done(reply: &Reply) -> bool {
    matches!(reply, Reply::Done | Reply::Committed | Reply::RolledBack)
}

impl Views {
    /// Adds those views and their rows.
    pub fn add(&mut self, more: Views) {
        self.views = self.views.saturating_add(more.views);
        self.rows = self.rows.saturating_add(more.rows);
    }
}

impl Pair {
    /// Both new, with no rows. Views will be compared at these keys.
    pub fn new(
        alloc: Global,
        settings: Settings,
        keys: &'static [u64],
    ) -> Result<Pair, Difference> {
        let Ok(engine) = Engine::new(alloc, settings) else {
            return Err(Difference::NoMemory);
        };
        let Ok(judge) = Judge::new(alloc, settings.indexed) else {
            return Err(Difference::NoMemory);
        };
        let Ok(levels) = no_levels(alloc) else {
            return Err(Difference::NoMemory);
        };
        Ok(Pair {
            engine,
            judge,
            settings,
            keys,
            views: Views { views: 0, rows: 0 },
            levels,
            vacuum: None,
            cuts: 0,
            made: [false; 5],
            makings: 0,
        })
    }

    /// The engine's page of this number, if it is in use.
    pub fn page(&self, number: u32) -> Option<&Page> {
        self.engine.page(number)
    }

    /// How the session stands, and whether it reads a row of the key.
    pub fn standing(&self, s: u8, key: u64) -> Standing {
        match self.judge.history().read(s, key) {
            Ok(Some(_)) => Standing::Reads,
            Ok(None) => Standing::ReadsNone,
            Err(Refusal::Failed) => Standing::Failed,
            Err(_) => Standing::Closed,
        }
    }

    fn levels(&self, s: u8) -> Option<&Levels> {
        self.levels.get(s as usize)
    }

    /// How many ids the session has below its first.
    pub fn children(&self, s: u8) -> u32 {
        self.levels(s).map_or(0, |levels| levels.children())
    }

    /// How many levels of the session have no id.
    pub fn lacking(&self, s: u8) -> usize {
        self.levels(s).map_or(0, |levels| levels.lacking())
    }

    /// Whether the session has a cursor open.
    pub fn has_cursor(&self, s: u8) -> bool {
        self.judge.history().check_cursor(s).is_ok()
    }

    /// Whether the session is open.
    pub fn is_open(&self, s: u8) -> bool {
        self.levels(s).map_or(false, |levels| levels.is_open())
    }

    /// How many versions were taken so far by prunings of a page, though who deleted them is not before the horizon. Each stood in its
    /// chain before one that is dead.
    pub fn cuts(&self) -> u64 {
        self.cuts
    }

    /// How many indexes were made in use so far.
    pub fn makings(&self) -> u64 {
        self.makings
    }

    /// Whether a page that has a slot is noted as all-visible.
    pub fn has_all_visible(&self) -> bool {
        for number in 0..self.settings.max_pages {
            if let (Some(page), Some(bits)) = (
                self.engine.page(number),
                self.engine.page_bits(number),
            ) {
                if bits > 0 && page.slots() > 0 {
                    return true;
                }
            }
        }
        false
    }

    /// Whether a vacuum runs.
    pub fn has_vacuum(&self) -> bool {
        self.vacuum.is_some()
    }

    /// The engine's next id.
    pub fn next_id(&self) -> Xid {
        self.engine.ids().0
    }

    /// How many slots there are on all pages.
    pub fn slots(&self) -> u64 {
        let mut slots: u64 = 0;
        for number in 0..self.settings.max_pages {
            if let Some(page) = self.engine.page(number) {
                slots = slots.saturating_add(u64::from(page.slots()));
            }
        }
        slots
    }

    // Whether the step would need ids, and not as many may be given.
    fn needs_freeze(&self, step: &Step) -> bool {
        let Some(s) = writer_of(step) else {
            return false;
        };
        let (next, first) = self.engine.ids();
        is_short(first, next, self.settings.stop_age, self.lacking(s))
    }

    // The versions of the page that the step prunes, if it is a pruning.
    fn chains(&self, alloc: Global, step: &Step) -> Result<Option<Chains>, Difference> {
        let Step::Prune(number) = step else {
            return Ok(None);
        };
        match self.engine.page(*number) {
            Some(page) => match chains_of(alloc, page, *number) {
                Ok(chains) => Ok(Some(chains)),
                Err(_) => Err(Difference::NoMemory),
            },
            None => Ok(None),
        }
    }

    fn count_cuts(&mut self, chains: Option<Chains>) {
        let horizon = horizon_of(self.levels.as_slice(), self.engine.ids().0);
        if let Some(chains) = chains {
            if let Some(page) = self.engine.page(chains.page) {
                self.cuts = self.cuts.saturating_add(count_cuts(&chains, page, horizon));
            }
        }
    }

    fn before(&self, step: &Step) -> Before {
        Before {
            ids: self.engine.ids(),
            needs_freeze: self.needs_freeze(step),
            has_page: match step {
                Step::TakePage(_, page) | Step::Prune(page) | Step::ApplyPlan(page, _) => {
                    self.engine.page(*page).is_some()
                }
                _ => false,
            },
            lacks_index: match step {
                Step::CreateIndex(column) if *column < 4 => self.engine.index(column + 1).is_none(),
                _ => false,
            },
        }
    }

    // Whether a version of this size fits on no page, and there may be no further page.
    fn is_full(&self, size: usize) -> bool
        ensures { IsTrue result
            ↔ AreFull self.now.engine.engine.core.heap.pages.pages
            self.now.settings.max_pages size }
    {
        for number in 0..self.settings.max_pages {
            if !is_full_page(self.engine.page(number), size) {
                return false;
            }
        }
        true
    }

    // Whether the reply is that there is no room, and there is none for the row.
    fn is_without_room(&self, row: &RowIn, reply: &Reply) -> bool
        requires { length row.now.body ≤ MOST_BODY }
    {
        match reply {
            Reply::Refused(Refusal::NoRoom) => self.is_full(size_on_page(row)),
            _ => false,
        }
    }

    // What hinders a write, where the engine has replied this: which write finds no room is left to it.
    fn hindrance_of_write(&self, step: &Step, before: Before, reply: &Reply) -> Option<Refusal> {
        if before.needs_freeze {
            return Some(Refusal::NeedsFreeze);
        }
        match row_to_write(step) {
            Some(row) if !is_too_large(row) && self.is_without_room(row, reply) => {
                Some(Refusal::NoRoom)
            }
            _ => None,
        }
    }

    // What hinders the step where the history lets it pass, and where the engine has replied this.
    fn hindrance(&self, step: &Step, before: Before, reply: &Reply) -> Option<Refusal> {
        if let Some(_) = writer_of(step) {
            return self.hindrance_of_write(step, before, reply);
        }
        match step {
            Step::TakePage(_, _) | Step::Prune(_) | Step::ApplyPlan(_, _) if !before.has_page => {
                Some(Refusal::NoSuchPage)
            }
            Step::ApplyPlan(_, _) => hindrance_of_plan(reply),
            _ => None,
        }
    }

    // Has the reply judged, and compares it with what hinders the step.
    fn judge(&mut self, step: &Step, before: Before, reply: Reply) -> Result<Reply, Difference> {
        let hindrance = self.hindrance(step, before, &reply);
        match self.judge.judge(step, &reply) {
            Ok(Ruling::Allowed) if agrees_with(hindrance, &reply) => Ok(reply),
            Ok(Ruling::Allowed) => Err(Difference::Unhindered(reply, hindrance)),
            Ok(Ruling::Broken) => Err(Difference::Broken(reply)),
            Err(_) => Err(Difference::NoMemory),
        }
    }

    // The ids that there have to be. A write that is done gives an id to each level of its session that has none. At the end of an
    // aggressive vacuum old ones are forgotten. No other step changes them.
    fn expected_ids(&mut self, step: &Step, before: Before, reply: &Reply) -> (Xid, Xid) {
        let mut given = 0;
        if let (true, Some(s)) = (is_done(reply), session_of_levels(step)) {
            if let Some(levels) = self.levels.get_mut(s as usize) {
                given = levels.follow(step, before.ids.0);
            }
        }
        let first = match (reply, self.vacuum) {
            (Reply::Ended(_), Some(vacuum)) => vacuum.first_after(before.ids.1),
            _ => before.ids.1,
        };
        (after(before.ids.0, given), first)
    }

    // A session holds the horizon back to the xmin of the snapshot that it keeps: that of its beginning, or that of its cursor.
    fn note_snapshot(&mut self, step: &Step, reply: &Reply) {
        if !is_done(reply) {
            return;
        }
        let Some(s) = session_of_snapshot(step) else {
            return;
        };
        let xmin = xmin_of(self.levels.as_slice(), self.engine.ids().0);
        if let Some(levels) = self.levels.get_mut(s as usize) {
            match step {
                Step::Begin(_) => levels.begin(xmin),
                Step::BeginReadCommitted(_) => levels.begin_by_statement(),
                Step::Close(_) => levels.note_cursor(None),
                _ => levels.note_cursor(Some(xmin)),
            }
        }
    }

    fn new_vacuum(&self, mode: Mode) -> RunningVacuum {
        let ids = self.engine.ids();
        let horizon = horizon_of(self.levels.as_slice(), ids.0);
        RunningVacuum::new(mode, ids, horizon, self.settings.freeze_min_age)
    }

    fn note_vacuum(&mut self, step: &Step, reply: &Reply) {
        match (step, reply) {
            (Step::VacuumBegin(mode), Reply::Done) => self.vacuum = Some(self.new_vacuum(*mode)),
            (Step::VacuumCancel, _) | (_, Reply::Ended(_)) => self.vacuum = None,
            _ => {}
        }
    }

    // A session that is not open, if there is one.
    fn idle_session(&self) -> Option<u8> {
        for s in 0..64u8 {
            if !self.is_open(s) {
                return Some(s);
            }
        }
        None
    }

    // Compares an index that was just made with what a session reads that begins now.
    fn compare_made(&mut self, number: u8) -> Result<(), Difference> {
        let (Some(s), Some(index)) = (self.idle_session(), self.engine.index(number)) else {
            return Err(Difference::Made(number));
        };
        // Nobody waits for a session that is not open, so these two end no wait.
        let _ = self.judge.judge(&Step::Begin(s), &Reply::Done);
        let exact = is_exact(self.judge.history(), s, index, number, self.keys);
        let _ = self.judge.judge(&Step::Abort(s), &Reply::RolledBack);
        if exact {
            Ok(())
        } else {
            Err(Difference::Made(number))
        }
    }

    // Notes an index that was made, if the step made one.
    fn note_making(
        &mut self,
        step: &Step,
        before: Before,
        reply: &Reply,
    ) -> Result<(), Difference> {
        match (step, reply) {
            (Step::CreateIndex(column), Reply::Done) if before.lacks_index => {
                let number = column.saturating_add(1);
                if let Some(made) = self.made.get_mut(number as usize) {
                    *made = true;
                }
                self.makings = self.makings.saturating_add(1);
                self.compare_made(number)
            }
            _ => Ok(()),
        }
    }

    // The engine's reply to a copy of the step. (It promises nothing: what the engine promises would be carried to the end of `step`.)
    fn ask(&mut self, alloc: Global, step: &Step) -> Result<Reply, Difference> {
        match step.copy(alloc) {
            Ok(copy) => Ok(self.engine.step(copy)),
            Err(_) => Err(Difference::NoMemory),
        }
    }

    /// Has the engine do the step, and gives its reply, where it is as it has to be. The engine gets a copy.
    pub fn step(&mut self, alloc: Global, step: &Step) -> Result<Reply, Difference> {
        let before = self.before(step);
        let chains = self.chains(alloc, step)?;
        let reply = self.ask(alloc, step)?;
        if let (true, Some(s)) = (makes_fail(&reply), writer_of(step)) {
            // The engine's session has failed, and reads on. In the judge's history it has not yet.
            self.compare_views(&[s])?;
        }
        let reply = self.judge(step, before, reply)?;
        let ids = self.engine.ids();
        let expected_ids = self.expected_ids(step, before, &reply);
        if !tells_oldest(&reply, expected_ids.1) {
            return Err(Difference::Oldest(reply, expected_ids.1));
        }
        if ids != expected_ids {
            return Err(Difference::Ids(ids, expected_ids));
        }
        self.count_cuts(chains);
        self.note_snapshot(step, &reply);
        self.note_vacuum(step, &reply);
        self.note_making(step, before, &reply)?;
        if let Step::VacuumStep = step {
            self.look()?;
        }
        Ok(reply)
    }

    /// Looks at what is noted of the pages, and at the entries of the indexes, beside the pages.
    pub fn look(&self) -> Result<(), Difference> {
        let pages = self.settings.max_pages;
        if let Some(number) = first_misnoted(&self.engine, pages) {
            return Err(Difference::Noted(number));
        }
        match first_astray(&self.engine, count_slots(&self.engine, pages), self.made) {
            Some(number) => Err(Difference::Entries(number)),
            None => Ok(()),
        }
    }

    /// Compares the pages with the rows that the session reads. The session began after an aggressive vacuum had ended, where nobody
    /// else did a step meanwhile and no session was open. Then there is one version for each row, no slot is dead, and all pages are
    /// all-visible.
    pub fn compare_bare(&self, s: u8) -> Result<(), Difference> {
        let mut rows: u64 = 0;
        for key in self.keys {
            if let Ok(Some(_)) = self.judge.history().read(s, *key) {
                rows = rows.saturating_add(1);
            }
        }
        let pages = self.settings.max_pages;
        let counts = count_slots(&self.engine, pages);
        if self.vacuum.is_some() {
            return Err(Difference::NotBare);
        }
        if counts.versions != rows || counts.dead > 0 || !are_all_visible(&self.engine, pages) {
            return Err(Difference::NotBare);
        }
        Ok(())
    }

    fn has_failed(&self, s: u8) -> bool {
        matches!(self.judge.history().check_ready(s), Err(Refusal::Failed))
    }

    // Whether the history allows that a get of the session is answered so.
    fn allows_read(&self, s: u8, key: u64, reply: &Reply) -> bool {
        self.judge.allows(&Step::Get(s, key), reply)
    }

    // What the engine's session reads of the key.
    fn reading(&self, s: u8, key: u64) -> Reading {
        match self.engine.read(s, key) {
            Ok(_) if self.has_failed(s) => Reading::Refused,
            Ok(row) => {
                let reading = reading_of(&row);
                if self.allows_read(s, key, &Reply::Found(row)) {
                    reading
                } else {
                    Reading::Broken
                }
            }
            Err(why) if self.allows_read(s, key, &Reply::Refused(why)) => Reading::Refused,
            Err(_) => Reading::Broken,
        }
    }

    // Compares what the session reads of each key, and counts that as a view where all were read.
    fn compare_view(&mut self, s: u8) -> Result<(), Difference> {
        let mut is_read = !self.keys.is_empty();
        let mut rows: u64 = 0;
        for key in self.keys {
            match self.reading(s, *key) {
                Reading::Broken => return Err(Difference::View(s, *key)),
                Reading::Refused => is_read = false,
                Reading::NoRow => {}
                Reading::Row => rows = rows.saturating_add(1),
            }
        }
        if is_read {
            self.views.add(Views { views: 1, rows });
        }
        Ok(())
    }

    /// Compares what each of the sessions reads of each key.
    pub fn compare_views(&mut self, sessions: &[u8]) -> Result<(), Difference> {
        for s in sessions {
            self.compare_view(*s)?;
        }
        Ok(())
    }

    /// The views that were compared so far, if there was any.
    pub fn views(&self) -> Result<Views, Difference>
        ensures some { IfOk result
            (λ compared. compared ≡ self.now.views × (0 < compared.views)) }
        ensures none { IfErr result (λ why. why ≡ NoView × (self.now.views.views ≡ 0)) }
    {
        if self.views.views == 0 {
            return Err(Difference::NoView);
        }
        Ok(self.views)
    }
}
