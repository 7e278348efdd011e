//! The answers of steps that hand out no row.

ghost use Rattle.std.specs.Prelude.{◌≡◌};
ghost use Rattle.session_steps.specs.Replies.{reply_to};
ghost use Rattle.session_steps.specs.Writes.{outcome_of, reply_for};

use calls::{Refusal, Reply};
use heap_write::WriteFault;
use xid_circle::Xid;

/// The answer of a step that was done, and hands out no row. A `Reply` has room for one, which costs wherever it is made or handed
/// on.
#[derive(Clone, Copy, Debug, PartialEq, Eq)]
pub enum Ack {
    /// The step was done, and there is nothing else to say.
    Done,
    /// The session's writes are part of the history.
    Committed,
    /// The transaction was rolled back.
    RolledBack,
}

/// The answer of a write.
pub(crate) fn write_answer(tried: Result<Xid, WriteFault>) -> Result<Ack, Refusal>
    ensures { reply_to result ≡ reply_for (outcome_of tried) }
{
    match tried {
        Ok(_) => Ok(Ack::Done),
        Err(WriteFault::NeedsFreeze) => Err(Refusal::NeedsFreeze),
        Err(WriteFault::NoRoom) => Err(Refusal::NoRoom),
        Err(WriteFault::NoMemory) => Err(Refusal::NoMemory),
    }
}

/// Puts the reply to a step in the place of another.
pub(crate) fn put_reply(answer: Result<Ack, Refusal>, reply: &mut Reply)
    ensures { reply.new ≡ reply_to answer }
{
    // each is made where it stays, and one that is there is not made again: the place of a row would be cleared
    match answer {
        Ok(Ack::Done) => {
            if !matches!(reply, Reply::Done) {
                *reply = Reply::Done;
            }
        }
        Ok(Ack::Committed) => *reply = Reply::Committed,
        Ok(Ack::RolledBack) => *reply = Reply::RolledBack,
        Err(refusal) => *reply = Reply::Refused(refusal),
    }
}
