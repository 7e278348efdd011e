//! The tests that every write of a session makes first, and its answers.

ghost use Rattle.std.specs.Prelude.{◌≡◌, MatchResult, Err};
ghost use Rattle.session_steps.specs.State.{refused_state, with_failed};
ghost use Rattle.session_steps.specs.Tests.{FindsPlace, IsUncontested, ConflictsWrite, MayInsertKey, MayChangeKey, RefusesInsertOfKey, RefusesChangeOfKey};

use crate::engine::SessionEngine;
use crate::outcome::Ack;
use calls::Refusal;
use root_index::PositionHint;
use sessions::{Session, owner};
use xid_circle::Tid;

impl SessionEngine {
    /// The place of the version of the key that a session reads. The answer also has a hint where the key's last entry is, or would
    /// be, or else the refusal that bars the session from writing the key. That refusal bars it whatever it reads of the key. Tests
    /// in order: Conflict, Busy.
    fn write_conflict(
        &self,
        session: &Session,
        key: u64,
    ) -> (Option<Tid>, Result<PositionHint, Refusal>)
        ensures place { FindsPlace self.now.heap session.now key result.0 }
        ensures write_conflict { MatchResult result.1 (λ _. IsUncontested self.now session.now key)
            (λ refusal. ConflictsWrite self.now session.now key refusal) }
    {
        let mut place = None;
        let (check, near) = self
            .heap
            .check_write(key, &self.reader(session, &mut place));
        if let Some(_) = check.newer_commit {
            return (check.place, Err(Refusal::Conflict));
        }
        match check.other_writer {
            Some(x) => match owner(self.sessions.places_in_use(), x) {
                Some(o) => (check.place, Err(Refusal::Busy(o))),
                // each id in progress is an open session's
                None => unreachable!(),
            },
            None => (check.place, Ok(near)),
        }
    }

    /// The refusal that bars a session that may act from inserting a row of the key; else a hint where its entry goes. Tests in
    /// order: AlreadyThere, Conflict, Busy.
    pub(crate) fn check_insert(&self, session: &Session, key: u64) -> Result<PositionHint, Refusal>
        ensures { MatchResult result (λ _. MayInsertKey self.now session.now key)
            (λ refusal. RefusesInsertOfKey self.now session.now key refusal) }
    {
        let (place, write_conflict) = self.write_conflict(session, key);
        match place {
            Some(_) => Err(Refusal::AlreadyThere),
            None => write_conflict,
        }
    }

    /// The place of the version of the key that a session which may act reads, and may update or delete. The answer also has a
    /// hint where another entry of the key goes, if the index was searched. The index is searched only where no undeleted version
    /// is found by its place. Tests in order: NotThere, Conflict, Busy.
    pub(crate) fn check_change(
        &self,
        session: &Session,
        key: u64,
    ) -> Result<(Tid, Option<PositionHint>), Refusal>
        ensures { MatchResult result (λ found. MayChangeKey self.now session.now key found.0)
            (λ refusal. RefusesChangeOfKey self.now session.now key refusal) }
    {
        let mut snapshot = None;
        let reader = self.reader(session, &mut snapshot);
        if let Some(place) = self.heap.undeleted_place(key, &reader) {
            return Ok((place, None));
        }
        let (place, write_conflict) = self.write_conflict(session, key);
        match place {
            None => Err(Refusal::NotThere),
            Some(place) => {
                let near = write_conflict?;
                Ok((place, Some(near)))
            }
        }
    }

    /// Where the entry by key of the next new root is looked for first: a hint, so nothing changes that anybody sees of the engine.
    /// It is a call of its own, so that this is said of the engine once.
    pub(crate) fn expect_entry(&mut self, near: Option<PositionHint>)
        ensures { self.new ≡ self.old }
    {
        self.heap.expect_entry(near)
    }

    /// Answers the refusal of a write. A conflict makes the session fail: it can only be rolled back.
    pub(crate) fn refuse(&mut self, s: u8, refusal: Refusal) -> Result<Ack, Refusal>
        ensures answer { result ≡ Err refusal }
        ensures state { self.new ≡ refused_state self.old s refusal }
    {
        if let Refusal::Conflict = refusal {
            self.fail(s);
        }
        Err(refusal)
    }

    /// Makes the session fail, if it is open: it can only be rolled back, or return to a savepoint.
    pub fn fail(&mut self, s: u8)
        ensures { self.new ≡ with_failed self.old s }
    {
        if let Err(_) = self.open_session(s) {
            return;
        }
        self.sessions.open_mut(s).failed = true;
    }
}
