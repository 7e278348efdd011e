//! Look-ups in the history and in the sessions.

ghost use Rattle.std.specs.Prelude.{◌≡◌, ◌≢◌, ℕ, ◌≤◌, ◌<◌, ◌↔◌, IsTrue, IsSome, MatchOption, length, IfOk, IfSome, Some};
ghost use Rattle.history.specs.History.{written, IsLate};
ghost use Rattle.history.specs.World.{joined, own_write, start_now, view, OpenSession, by_statement};
ghost use Rattle.std.specs.Option.{option_map};
ghost use Rattle.keyed_history.specs.Places.{IsRowOf};
ghost use Rattle.plain_history.specs.Plain.{open_of, session_in};

use crate::plain::{PlainIsolation, PlainSession};
use keyed_history::{KeyedHistory, PlainLevel};
use std::alloc::{AllocError, Global};
use tuple_header::Row;

/// What the newest level that wrote the key says of it.
fn written_in(levels: &[PlainLevel], key: u64) -> Option<Option<Row>>
    ensures value { result ≡ written (joined levels.now) key }
    ensures keyed { IfSome result (λ row. IsRowOf key row) }
{
    for level in levels {
        if let Some(said) = level.last_write(key) {
            return Some(said);
        }
    }
    None
}

impl PlainSession {
    pub(crate) fn own_write(&self, key: u64) -> Option<Option<Row>>
        ensures value { result ≡ own_write (open_of self.now) key }
        ensures keyed { IfSome result (λ row. IsRowOf key row) }
    {
        match self.newest.last_write(key) {
            Some(said) => Some(said),
            None => written_in(&self.older, key),
        }
    }

    /// All that the session wrote, the oldest write first.
    pub(crate) fn all_writes(&self, alloc: Global) -> Result<PlainLevel, AllocError>
        ensures { IfOk result (λ all. all ≡ joined (open_of self.now).levels) }
    {
        let mut all = joined_levels(alloc, &self.older)?;
        all.extend(alloc, &self.newest)?;
        Ok(all)
    }

    pub(crate) fn is_by_statement(&self) -> bool
        ensures { IsTrue result ↔ ((open_of self.now).isolation ≡ by_statement) }
    {
        match self.isolation {
            PlainIsolation::BySnapshot(_) => false,
            PlainIsolation::ByStatement => true,
        }
    }

    /// How many transactions had committed when the snapshot was taken by which a statement of the session reads now.
    pub(crate) fn start_now(&self, history: &KeyedHistory) -> usize
        ensures { result ≡ start_now history.now (open_of self.now) }
    {
        match self.isolation {
            PlainIsolation::BySnapshot(start) => start,
            PlainIsolation::ByStatement => history.len(),
        }
    }

    /// The row that the session reads.
    pub(crate) fn view(&self, history: &KeyedHistory, key: u64) -> Option<Row>
        ensures value { result ≡ view history.now (open_of self.now) key }
        ensures keyed { IsRowOf key result }
    {
        match self.own_write(key) {
            Some(row) => row,
            None => history.row_after(self.start_now(history), key),
        }
    }
}

/// All writes of the levels, the oldest write first.
fn joined_levels(alloc: Global, levels: &[PlainLevel]) -> Result<PlainLevel, AllocError>
    ensures { IfOk result (λ all. all ≡ joined levels.now) }
{
    let mut all = PlainLevel::new(alloc);
    for level in levels {
        let mut longer = PlainLevel::new(alloc);
        longer.extend(alloc, level)?;
        longer.extend(alloc, &all)?;
        all = longer;
    }
    Ok(all)
}

/// Did a transaction write the key that has committed since the snapshot of the session's statement was taken?
pub(crate) fn is_late(history: &KeyedHistory, session: &PlainSession, key: u64) -> bool
    ensures { IsTrue result
        ↔ IsLate history.now (start_now history.now (open_of session.now)) key }
{
    history.is_late(session.start_now(history), key)
}

/// Another open session that has the key in its levels.
pub(crate) fn holder(sessions: &[Option<PlainSession>], s: u8, key: u64) -> Option<u8>
    requires { length sessions.now ≤ 256 }
    ensures { MatchOption result
        ((o : ℕ) (m : OpenSession) → o ≢ s → session_in sessions.now o ≡ Some m
        → IsSome (own_write m key) → ⊥)
        (λ o. (o ≢ s)
        × ((m : OpenSession) × (session_in sessions.now o ≡ Some m) × IsSome (own_write m key))) }
{
    for o in 0..sessions.len() {
        if o != s as usize && holds(&sessions[o], key) {
            return Some(o as u8);
        }
    }
    None
}

/// Is the session open, and reads by statement?
pub(crate) fn reads_by_statement(session: &Option<PlainSession>) -> bool
    ensures { IsTrue result
        ↔ ((m : OpenSession) × (option_map open_of session.now ≡ Some m)
        × (m.isolation ≡ by_statement)) }
{
    match session {
        Some(session) => session.is_by_statement(),
        None => false,
    }
}

/// Is the session open, with the key in its levels?
pub(crate) fn holds(session: &Option<PlainSession>, key: u64) -> bool
    ensures { IsTrue result
        ↔
        ((m : OpenSession) × (option_map open_of session.now ≡ Some m) × IsSome (own_write m key)) }
{
    match session {
        Some(session) => session.own_write(key).is_some(),
        None => false,
    }
}
