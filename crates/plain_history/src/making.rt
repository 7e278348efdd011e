//! An index is made in use, and a vacuum begins and ends.

ghost use Rattle.std.specs.Prelude.{◌≡◌, ◌<◌, ◌+◌, ℕ, ◌↔◌, ◌==◌, IsTrue, if◌then◌else◌, length, get_or, false, true, OnOk, IfErr};
ghost use Rattle.std.specs.Option.{option_map};
ghost use Rattle.history.specs.World.{SomeoneHasWritten, MayIndex};
ghost use Rattle.history.specs.Moves.{is_open_by_snapshot, with_index_on, with_made_index, with_vacuum};
ghost use Rattle.plain_history.specs.Plain.{has_session_written, open_of, session_in, too_new_in, world_of};
ghost use Rattle.plain_history.specs.Answers.{RefusesMaking};
ghost use Rattle.tuple_header.specs.declared.version.TheConstants.{COLUMNS};

use crate::plain::{PlainHistory, PlainIsolation, PlainSession};
use calls::Refusal;

/// Is the session open, and has it written?
fn has_session_written(session: &Option<PlainSession>) -> bool
    ensures { result ≡ has_session_written (option_map open_of session.now) }
{
    match session {
        Some(session) => session.has_written,
        None => false,
    }
}

/// Has an open session written?
fn has_any_written(sessions: &[Option<PlainSession>]) -> bool
    ensures { IsTrue result
        ↔ ((s : ℕ) × (has_session_written (session_in sessions.now s) ≡ true)) }
{
    for s in 0..sessions.len() {
        if has_session_written(&sessions[s]) {
            return true;
        }
    }
    false
}

fn is_open_by_snapshot(session: &Option<PlainSession>) -> bool
    ensures { result ≡ is_open_by_snapshot (option_map open_of session.now) }
{
    match session {
        Some(session) => match session.isolation {
            PlainIsolation::BySnapshot(_) => true,
            PlainIsolation::ByStatement => false,
        },
        None => false,
    }
}

fn with_mark(marks: [bool; 5], index: u8, mark: bool) -> [bool; 5]
    requires { index < 5 }
    ensures { (i : ℕ) → get_or result i false
        ≡ (if i == index then mark else get_or marks i false) }
{
    let mut marks = marks;
    marks[index as usize] = mark;
    marks
}

/// The index is too new for each session that is open by snapshot.
fn mark_all(too_new: &mut [[bool; 5]], sessions: &[Option<PlainSession>], index: u8)
    requires small { index < 5 }
    requires places { length too_new.old ≡ length sessions.now }
    ensures marks { (s i : ℕ) → too_new_in too_new.new s i
        ≡ (if i == index then is_open_by_snapshot (session_in sessions.now s)
        else too_new_in too_new.old s i) }
    ensures same { length too_new.new ≡ length too_new.old }
{
    for s in 0..sessions.len() {
        too_new[s] = with_mark(too_new[s], index, is_open_by_snapshot(&sessions[s]));
    }
}

impl PlainHistory {
    fn make(&mut self, column: u8)
        requires { column < COLUMNS }
        ensures { world_of self.new ≡ with_made_index (world_of self.old) (column + 1) }
    {
        self.indexed[column as usize] = true;
        mark_all(&mut self.too_new, &self.sessions, column + 1);
    }

    /// The index of the column is there. It is too new for each session that is open by snapshot, unless it was there.
    pub fn make_if_lacking(&mut self, column: u8)
        requires { column < COLUMNS }
        ensures { world_of self.new ≡ with_index_on (world_of self.old) column }
    {
        if !self.has_index(column + 1) {
            self.make(column);
        }
    }

    /// Whether the index of the column may be made, or is there; nothing is changed. Refusals in order: NoSuchIndex, IndexBusy.
    pub fn check_make(&self, column: u8) -> Result<(), Refusal>
        ensures ok { OnOk result (MayIndex (world_of self.now) column) }
        ensures err { IfErr result (λ why. RefusesMaking (world_of self.now) column why) }
    {
        if column > 3 {
            Err(Refusal::NoSuchIndex)
        } else if !self.has_index(column + 1) && has_any_written(&self.sessions) {
            Err(Refusal::IndexBusy)
        } else {
            Ok(())
        }
    }

    /// Whether an open session has written, be it that all of it was rolled back since. (The sessions are private to the crate.)
    pub fn has_anyone_written(&self) -> bool
        ensures { IsTrue result ↔ SomeoneHasWritten (world_of self.now) }
    {
        has_any_written(&self.sessions)
    }

    /// Whether a vacuum runs.
    pub fn has_vacuum(&self) -> bool
        ensures { result ≡ (world_of self.now).has_vacuum }
    {
        self.vacuuming
    }

    /// A vacuum runs from now on, or none does.
    pub fn set_vacuum(&mut self, runs: bool)
        ensures { world_of self.new ≡ with_vacuum runs (world_of self.old) }
    {
        self.vacuuming = runs;
    }
}
