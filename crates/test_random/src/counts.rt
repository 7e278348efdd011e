//! How often each kind of reply came, and each kind of slot.

ghost use Rattle.std.specs.Prelude.{◌<◌, IfSome};

use page_slots::{Page, Slot};
use session_core::{Piece, Refusal, Reply, Step};
use side_by_side::Views;
use std::io;
use tuple_header::Tuple;

/// How many kinds there are.
pub(crate) const KINDS: usize = 51;

const NAMES: [&str; KINDS] = [
    "Done",
    "Found, a row",
    "Found, none",
    "Committed",
    "RolledBack",
    "Rows",
    "End",
    "NotOpen",
    "AlreadyOpen",
    "Failed",
    "AlreadyThere",
    "NotThere",
    "Conflict",
    "Busy",
    "CursorOpen",
    "NoCursor",
    "TooDeep",
    "NoSavepoint",
    "TooLarge",
    "NoRoom",
    "NeedsFreeze",
    "NoSuchPage",
    "NoSuchIndex",
    "NoSuchSession",
    "BadBounds",
    "unused slots at the end",
    "redirects",
    "dead slots",
    "heap-only versions",
    "versions whose successor is on another page",
    "begun beside more than 64 children of one session",
    "VacuumRunning",
    "NoVacuum",
    "Worked, visited a page",
    "Worked, removed entries",
    "Worked, freed slots",
    "Ended",
    "vacuums that were broken off",
    "versions put in a slot that was used before",
    "engines whose ids begin near the turn",
    "engines whose ids passed it, after a vacuum had lifted NeedsFreeze",
    "versions that a pruning took before they were dead",
    "IndexTooNew",
    "IndexBusy",
    "indexes made beside sessions by snapshot and by statement",
    "vacuums that ended after an index was made",
    "Deadlock",
    "rows of a page",
    "no rows of a page",
    "Keys",
    "Keys, with a page noted as all-visible",
];

const NEAR: usize = 39;

// Of all that begin near the turn.
const PASSED: usize = 40;

const CUT: usize = 41;

const MADE: usize = 44;

const CLEANED: usize = 45;

const DEADLOCK: usize = 46;

const PAGE_ROWS: usize = 47;

const NO_PAGE_ROWS: usize = 48;

const KEYS: usize = 49;

const NOTED_KEYS: usize = 50;

// How many indexes have to be made.
const MANY_MADE: u64 = 3000;

// How often the wait of a session has to close a ring.
const MANY_DEADLOCKS: u64 = 1000;

// How many engines have to pass the turn.
const MANY: u64 = 1000;

// How many versions prunings have to take before they are dead.
const MANY_CUTS: u64 = 300;

/// Counts of all steps, of all kinds, and of the views that were compared.
#[derive(Drop)]
pub(crate) struct Counts {
    steps: u64,
    counts: [u64; KINDS],
    views: Views,
}

fn place_of_refusal(refusal: Refusal) -> Option<usize>
    ensures { IfSome result (λ place. place < 51) }
{
    match refusal {
        Refusal::NotOpen => Some(7),
        Refusal::AlreadyOpen => Some(8),
        Refusal::Failed => Some(9),
        Refusal::AlreadyThere => Some(10),
        Refusal::NotThere => Some(11),
        Refusal::Conflict => Some(12),
        Refusal::Busy(_) => Some(13),
        Refusal::CursorOpen => Some(14),
        Refusal::NoCursor => Some(15),
        Refusal::TooDeep => Some(16),
        Refusal::NoSavepoint => Some(17),
        Refusal::TooLarge => Some(18),
        Refusal::NoRoom => Some(19),
        Refusal::NeedsFreeze => Some(20),
        Refusal::NoSuchPage => Some(21),
        Refusal::NoSuchIndex => Some(22),
        Refusal::NoSuchSession => Some(23),
        Refusal::BadBounds => Some(24),
        Refusal::IndexTooNew => Some(42),
        Refusal::IndexBusy => Some(43),
        Refusal::VacuumRunning => Some(31),
        Refusal::NoVacuum => Some(32),
        Refusal::Deadlock => Some(DEADLOCK),
        Refusal::Stale | Refusal::NoMemory => None,
    }
}

fn place_of_reply(reply: &Reply) -> Option<usize>
    ensures { IfSome result (λ place. place < 51) }
{
    match reply {
        Reply::Done => Some(0),
        Reply::Found(Some(_)) => Some(1),
        Reply::Found(None) => Some(2),
        Reply::Committed => Some(3),
        Reply::RolledBack => Some(4),
        Reply::Rows(_) => Some(5),
        Reply::Keys(_) => Some(KEYS),
        Reply::End => Some(6),
        Reply::Worked(Piece::Heap(_)) => Some(33),
        Reply::Worked(Piece::Index(_)) => Some(34),
        Reply::Worked(Piece::Free(_)) => Some(35),
        Reply::Ended(_) => Some(36),
        Reply::Refused(refusal) => place_of_refusal(*refusal),
    }
}

// Where the step says more of the reply.
fn place_of_both(step: &Step, reply: &Reply) -> Option<usize>
    ensures { IfSome result (λ place. place < 51) }
{
    match (step, reply) {
        (Step::VacuumCancel, Reply::Done) => Some(37),
        (Step::TakePage(_, _), Reply::Rows(rows)) if rows.is_empty() => Some(NO_PAGE_ROWS),
        (Step::TakePage(_, _), Reply::Rows(_)) => Some(PAGE_ROWS),
        _ => None,
    }
}

fn place_of_version(version: &Tuple, page: u32) -> Option<usize>
    ensures { IfSome result (λ place. place < 51) }
{
    if version.header.ctid.page != page {
        Some(29)
    } else if version.header.is_heap_only() {
        Some(28)
    } else {
        None
    }
}

fn place_of_slot(slot: &Slot, page: u32) -> Option<usize>
    ensures { IfSome result (λ place. place < 51) }
{
    match slot {
        Slot::Unused => Some(25),
        Slot::Redirect(_) => Some(26),
        Slot::Dead => Some(27),
        Slot::Normal(version) => place_of_version(version, page),
    }
}

impl Counts {
    /// Nothing is counted yet.
    pub(crate) fn new() -> Counts {
        Counts {
            steps: 0,
            counts: [0; KINDS],
            views: Views { views: 0, rows: 0 },
        }
    }

    /// Counts the views that were compared in a run.
    pub(crate) fn add_views(&mut self, views: Views) {
        self.views.add(views);
    }

    /// The views of all runs.
    pub(crate) fn views(&self) -> Views {
        self.views
    }

    /// The steps of all runs.
    pub(crate) fn steps(&self) -> u64 {
        self.steps
    }

    fn add(&mut self, place: Option<usize>)
        requires { IfSome place (λ place. place < 51) }
    {
        if let Some(place) = place {
            self.counts[place] = self.counts[place].saturating_add(1);
        }
    }

    /// Counts a step with its reply.
    pub(crate) fn add_step(&mut self, step: &Step, reply: &Reply) {
        self.steps = self.steps.saturating_add(1);
        self.add(place_of_reply(reply));
        self.add(place_of_both(step, reply));
    }

    /// Counts a version that was put in a slot that was used before.
    pub(crate) fn add_reused(&mut self) {
        self.add(Some(38));
    }

    /// Counts an engine whose ids begin near the turn, and whether they passed it.
    pub(crate) fn add_turning(&mut self, passed: bool) {
        self.add(Some(NEAR));
        if passed {
            self.add(Some(PASSED));
        }
    }

    /// Counts an index that was made while a session by snapshot and one by statement were open.
    pub(crate) fn add_made(&mut self) {
        self.add(Some(MADE));
    }

    /// Counts a vacuum that ended in an engine in which an index was made.
    pub(crate) fn add_cleaned(&mut self) {
        self.add(Some(CLEANED));
    }

    /// Counts keys that were handed out while a page was noted as all-visible.
    pub(crate) fn add_noted_keys(&mut self) {
        self.add(Some(NOTED_KEYS));
    }

    /// Counts versions that prunings took before they were dead.
    pub(crate) fn add_cuts(&mut self, cuts: u64) {
        self.counts[CUT] = self.counts[CUT].saturating_add(cuts);
    }

    /// Counts a session that began beside one with so many children: the snapshot names them where they are at most 64.
    pub(crate) fn add_begun(&mut self, children: u32) {
        if children > 64 {
            self.add(Some(30));
        }
    }

    /// Counts the slots of the page of this number.
    pub(crate) fn add_page(&mut self, page: &Page, number: u32) {
        for slot in 1..page.slots() + 1 {
            if let Some(slot) = page.slot(slot) {
                self.add(place_of_slot(&slot, number));
            }
        }
    }

    /// The name of a kind that never came, or too seldom, if there is one.
    pub(crate) fn missing(&self) -> Option<&'static str> {
        match self.first_missing() {
            Some(place) => Some(NAMES[place]),
            None => None,
        }
    }

    // (The names are a constant, which is made anew wherever it is named.)
    fn first_missing(&self) -> Option<usize>
        ensures { IfSome result (λ place. place < 51) }
    {
        for place in 0..KINDS {
            if self.counts[place] == 0 {
                return Some(place);
            }
        }
        let passed = self.counts[PASSED];
        if passed < MANY || passed < self.counts[NEAR] {
            return Some(PASSED);
        }
        if self.counts[CUT] < MANY_CUTS {
            return Some(CUT);
        }
        if self.counts[MADE] < MANY_MADE {
            return Some(MADE);
        }
        if self.counts[DEADLOCK] < MANY_DEADLOCKS {
            return Some(DEADLOCK);
        }
        None
    }

    /// Prints each count with its name.
    pub(crate) fn print(&self, rt: &impl Print) -> io::Result<()> {
        for place in 0..KINDS {
            let count = self.counts[place];
            let name = NAMES[place];
            println!(rt; "{count} {name}")?;
        }
        Ok(())
    }
}
