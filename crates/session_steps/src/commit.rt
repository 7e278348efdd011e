//! A session ends.

ghost use Rattle.calls.specs.declared.step.Step.{Step};
ghost use Rattle.session_steps.specs.Exact.{AnswersStep};
ghost use Rattle.session_steps.specs.Replies.{reply_to};

use crate::engine::SessionEngine;
use crate::outcome::Ack;
use calls::Refusal;
use commit_status::Status;

impl SessionEngine {
    /// Makes what the session wrote part of the history, unless it has failed, and closes it. Refusals in order:
    /// NoSuchSession, NotOpen. It takes no memory.
    pub fn commit(&mut self, s: u8) -> Result<Ack, Refusal>
        ensures { AnswersStep self.old (Step.Commit s) (reply_to result) self.new }
    {
        if self.open_session(s)?.failed {
            self.close(s, Status::Aborted);
            Ok(Ack::RolledBack)
        } else {
            self.close(s, Status::Committed);
            Ok(Ack::Committed)
        }
    }

    /// Drops what the session wrote, and closes it. Refusals in order: NoSuchSession, NotOpen. It takes no memory.
    pub fn abort(&mut self, s: u8) -> Result<Ack, Refusal>
        ensures { AnswersStep self.old (Step.Abort s) (reply_to result) self.new }
    {
        self.open_session(s)?;
        self.close(s, Status::Aborted);
        Ok(Ack::RolledBack)
    }
}
