//! A session sets savepoints, returns to its newest, and releases it.

ghost use Rattle.calls.specs.declared.step.Step.{Step};
ghost use Rattle.session_steps.specs.Exact.{AnswersStep};
ghost use Rattle.session_steps.specs.Replies.{reply_to};

use crate::engine::SessionEngine;
use crate::outcome::Ack;
use calls::Refusal;
use commit_status::Status;
use snapshot::SaveFault;

impl SessionEngine {
    /// Sets a savepoint, to which the session can return. Refusals in order: NoSuchSession, NotOpen, Failed, CursorOpen;
    /// TooDeep where it has 32 already; NoMemory.
    pub(crate) fn savepoint(&mut self, s: u8) -> Result<Ack, Refusal>
        ensures { AnswersStep self.old (Step.Savepoint s) (reply_to result) self.new }
    {
        self.free(s)?;
        match self.sessions.open_mut(s).own.save() {
            Ok(()) => Ok(Ack::Done),
            Err(SaveFault::TooDeep) => Err(Refusal::TooDeep),
            Err(SaveFault::NoMemory) => Err(Refusal::NoMemory),
        }
    }

    /// Drops what the session has written since its newest savepoint, which it keeps; the session has not failed any
    /// more. Refusals in order: NoSuchSession, NotOpen, CursorOpen, NoSavepoint. It takes no memory. (The manual's
    /// "ROLLBACK TO SAVEPOINT".)
    pub(crate) fn rollback_to(&mut self, s: u8) -> Result<Ack, Refusal>
        ensures { AnswersStep self.old (Step.RollbackTo s) (reply_to result) self.new }
    {
        let session = self.open_session(s)?;
        if let Some(_) = session.cursor {
            return Err(Refusal::CursorOpen);
        }
        if session.own.savepoints() == 0 {
            return Err(Refusal::NoSavepoint);
        }
        let session = self.sessions.open_mut(s);
        self.heap
            .finish(session.own.since_savepoint(), Status::Aborted);
        session.own.roll_back();
        session.failed = false;
        Ok(Ack::Done)
    }

    /// Forgets the newest savepoint; what was written since it belongs to the level below. Refusals in order:
    /// NoSuchSession, NotOpen, Failed, CursorOpen, NoSavepoint. It takes no memory. (The manual's "RELEASE SAVEPOINT".)
    pub(crate) fn release(&mut self, s: u8) -> Result<Ack, Refusal>
        ensures { AnswersStep self.old (Step.Release s) (reply_to result) self.new }
    {
        if self.free(s)?.own.savepoints() == 0 {
            return Err(Refusal::NoSavepoint);
        }
        self.sessions.open_mut(s).own.release();
        Ok(Ack::Done)
    }
}
