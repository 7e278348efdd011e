//! The waits: which session each one waits for.

ghost use Rattle.std.specs.Prelude.{◌≡◌, ◌≢◌, ◌&&◌, not, ℕ, if◌then◌else◌, false, None, slice_set, MatchOption};
ghost use Rattle.session_core.specs.State.{woken, with_waits};
ghost use Rattle.session_core.specs.Notes.{was_refused, NotesWait};
ghost use Rattle.session_steps.specs.Replies.{reply_to};
ghost use Rattle.vacuum_engine.specs.State.{failed_at};

use crate::engine::Engine;
use calls::{Refusal, Reply};
use session_steps::Ack;

/// The session for which a write has to wait.
fn holder_in(reply: &Reply) -> Option<u8>
    ensures { MatchOption result
        ((o : ℕ) → reply.now ≢ Reply.Refused (Refusal.Busy o))
        (λ o. reply.now ≡ Reply.Refused (Refusal.Busy o)) }
{
    match reply {
        Reply::Refused(Refusal::Busy(o)) => Some(*o),
        _ => None,
    }
}

/// True where a step with this reply gives back keys: it would, and was not refused.
fn gave_back(reply: &Reply, gives: bool) -> bool
    ensures { result ≡ (not (was_refused reply.now) && gives) }
{
    match reply {
        Reply::Refused(_) => false,
        _ => gives,
    }
}

impl Engine {
    /// Notes what the reply to a step of the session makes of the waits: by any step its own wait ends, and by Busy one begins.
    /// Where that would close a ring the session fails, and the reply is Deadlock. A session that gives back keys is awaited no
    /// more.
    pub(crate) fn note(&mut self, s: u8, gives: bool, reply: &mut Reply)
        ensures { NotesWait self.old s gives reply.old self.new reply.new }
    {
        let Some(o) = holder_in(reply) else {
            let gave = gave_back(reply, gives);
            self.end_wait(s, gave);
            return;
        };
        *reply = Reply::Refused(self.wait_for(s, o));
    }

    /// Notes the same of an answer that has no row.
    #[inline(always)]
    pub(crate) fn note_answer(
        &mut self,
        s: u8,
        gives: bool,
        answer: Result<Ack, Refusal>,
    ) -> Result<Ack, Refusal>
        ensures { NotesWait self.old s gives (reply_to answer) self.new (reply_to result) }
    {
        match answer {
            Ok(done) => {
                self.end_wait(s, gives);
                Ok(done)
            }
            Err(refusal) => match refusal {
                Refusal::Busy(o) => Err(self.wait_for(s, o)),
                _ => {
                    self.end_wait(s, false);
                    Err(refusal)
                }
            },
        }
    }

    /// The session waits for who has the key; or where that would close a ring it fails, and waits for nobody. The refusal says which.
    fn wait_for(&mut self, s: u8, o: u8) -> Refusal
        ensures { NotesWait self.old s false (Reply.Refused (Refusal.Busy o)) self.new
            (Reply.Refused result) }
    {
        if self.waits.closes_ring(s, o) {
            self.fail(s);
            return Refusal::Deadlock;
        }
        self.waits.begin(s, o);
        Refusal::Busy(o)
    }

    /// The session's own wait ends; and where it gives back keys, nobody waits for it any more.
    #[inline(always)]
    fn end_wait(&mut self, s: u8, gives: bool)
        ensures { self.new ≡ with_waits self.old.engine
            (if gives then woken s (slice_set self.old.waits s None)
            else slice_set self.old.waits s None) }
    {
        self.waits.end(s);
        if gives {
            self.waits.wake(s);
        }
    }

    /// The session fails, and waits for nobody.
    fn fail(&mut self, s: u8)
        ensures { self.new ≡ with_waits (failed_at self.old.engine s)
            (slice_set self.old.waits s None) }
    {
        self.core.fail(s);
        self.waits.end(s);
    }
}
