//! A session begins, by snapshot or by statement; and the snapshot that is taken.

ghost use Rattle.std.specs.Prelude.{◌≡◌, ◌<◌, None, IfOk, OnErr, MatchResult};
ghost use Rattle.snapshot.specs.Snap.{taken};
ghost use Rattle.commit_status.specs.Window.{next_id};
ghost use Rattle.session_steps.specs.State.{session_at};
ghost use Rattle.sessions.specs.Session.{owns_of};
ghost use Rattle.session_steps.specs.Tests.{BarsBegin};
ghost use Rattle.calls.specs.declared.step.TheConstants.{MOST_SESSIONS};
ghost use Rattle.calls.specs.declared.step.Step.{Step};
ghost use Rattle.session_steps.specs.Exact.{MustList, AnswersStep};
ghost use Rattle.session_steps.specs.Replies.{reply_to};

use crate::engine::SessionEngine;
use crate::outcome::Ack;
use calls::Refusal;
use sessions::{SessionIsolation, take_snapshot};
use snapshot::Snapshot;
use std::alloc::AllocError;

impl SessionEngine {
    /// The snapshot of this moment. (The engine's parts are named once, for a beginning and for a cursor.)
    pub(crate) fn snapshot(&self) -> Result<Snapshot, AllocError>
        ensures ok { IfOk result
            (λ s. s ≡ taken (next_id self.now.heap.statuses) (owns_of self.now.sessions)) }
        ensures err { OnErr result (MustList self.now) }
    {
        take_snapshot(
            self.alloc,
            self.heap.statuses().next(),
            self.sessions.places_in_use(),
        )
    }

    /// Tests whether the session may begin. Refusals in order: NoSuchSession, AlreadyOpen.
    fn may_begin(&self, s: u8) -> Result<(), Refusal>
        ensures { MatchResult result
            (λ _. (s < MOST_SESSIONS) × (session_at self.now s ≡ None))
            (λ refusal. BarsBegin self.now s refusal) }
    {
        match self.open_session(s) {
            Ok(_) => Err(Refusal::AlreadyOpen),
            Err(refusal) => match refusal {
                Refusal::NotOpen => Ok(()),
                _ => Err(refusal),
            },
        }
    }

    /// Opens the session: it reads what was committed by now. Refusals in order: NoSuchSession, AlreadyOpen, and NoMemory,
    /// which comes only where its snapshot lists more than 8 ids.
    pub fn begin(&mut self, s: u8) -> Result<Ack, Refusal>
        ensures { AnswersStep self.old (Step.Begin s) (reply_to result) self.new }
    {
        self.may_begin(s)?;
        match self.snapshot() {
            Ok(snapshot) => {
                self.open(s, SessionIsolation::BySnapshot(snapshot));
                Ok(Ack::Done)
            }
            Err(_) => Err(Refusal::NoMemory),
        }
    }

    /// Opens the session: each of its statements reads what was committed by then. Refusals in order: NoSuchSession, AlreadyOpen. It
    /// takes no memory.
    pub(crate) fn begin_read_committed(&mut self, s: u8) -> Result<Ack, Refusal>
        ensures { AnswersStep self.old (Step.BeginReadCommitted s) (reply_to result) self.new }
    {
        self.may_begin(s)?;
        self.open(s, SessionIsolation::ByStatement(None));
        Ok(Ack::Done)
    }
}
