//! The tests of a step, in their order.

ghost use Rattle.std.specs.Prelude.{◌≡◌, ◌<◌, ◌↔◌, IsTrue, OnOk, IfErr, IfOk, Some, None};
ghost use Rattle.history.specs.World.{OpenSession, by_statement, IsReady, IsWriter, MayWrite, world_sessions};
ghost use Rattle.plain_history.specs.Plain.{open_of, world_of};
ghost use Rattle.calls.specs.Bars.{BarsOpen, BarsReady, BarsFree};
ghost use Rattle.calls.specs.declared.step.TheConstants.{MOST_SESSIONS};
ghost use Rattle.plain_history.specs.Answers.{RefusesInsert, RefusesReplace, MeetsWrite, MayInsert, MayReplace, MayCommit};

use crate::lookup::{holder, is_late, reads_by_statement};
use crate::plain::{PlainHistory, PlainSession};
use crate::refusal::Refused;
use calls::Refusal;
use waits::closes_ring;

impl PlainHistory {
    /// The session, which is open.
    pub(crate) fn open_session(&self, s: u8) -> Result<&PlainSession, Refusal>
        ensures within { OnOk result (s < MOST_SESSIONS) }
        ensures ok { IfOk result (λ m. ((world_of self.now).session s ≡ Some (open_of m.now))) }
        ensures err { IfErr result (λ why. BarsOpen (world_sessions (world_of self.now)) s why) }
    {
        if s >= 64 {
            return Err(Refusal::NoSuchSession);
        }
        match &self.sessions[s as usize] {
            Some(session) => Ok(session),
            None => Err(Refusal::NotOpen),
        }
    }

    /// The session, which has not failed.
    pub(crate) fn ready_session(&self, s: u8) -> Result<&PlainSession, Refusal>
        ensures ok { IfOk result (λ m. IsReady (world_of self.now) s (open_of m.now)) }
        ensures err { IfErr result (λ why. BarsReady (world_sessions (world_of self.now)) s why) }
    {
        match self.open_session(s) {
            Ok(session) => {
                if session.failed {
                    Err(Refusal::Failed)
                } else {
                    Ok(session)
                }
            }
            Err(why) => Err(why),
        }
    }

    /// Whether the session is open and has not failed; nothing is changed. Refusals in order: NoSuchSession, NotOpen, Failed.
    pub fn check_ready(&self, s: u8) -> Result<(), Refusal>
        ensures ok { OnOk result (MayCommit (world_of self.now) s) }
        ensures err { IfErr result (λ why. BarsReady (world_sessions (world_of self.now)) s why) }
    {
        match self.ready_session(s) {
            Ok(_) => Ok(()),
            Err(why) => Err(why),
        }
    }

    /// Whether the session is open, and reads by statement. (The sessions are private to the crate.)
    pub fn reads_by_statement(&self, s: u8) -> bool
        ensures { IsTrue result
            ↔ ((m : OpenSession) × ((world_of self.now).session s ≡ Some m)
            × (m.isolation ≡ by_statement)) }
    {
        reads_by_statement(&self.sessions[s as usize])
    }

    /// The session, which has no cursor either.
    pub(crate) fn writer(&self, s: u8) -> Result<&PlainSession, Refusal>
        ensures ok { IfOk result (λ m. IsWriter (world_of self.now) s (open_of m.now)) }
        ensures err { IfErr result (λ why. BarsFree (world_sessions (world_of self.now)) s why) }
    {
        match self.ready_session(s) {
            Ok(session) => match &session.cursor {
                Some(_) => Err(Refusal::CursorOpen),
                None => Ok(session),
            },
            Err(why) => Err(why),
        }
    }

    /// The tests of a write that stand behind those of the view.
    fn check_conflicts(&self, s: u8, session: &PlainSession, key: u64) -> Result<(), Refused>
        requires { IsWriter (world_of self.now) s (open_of session.now) }
        ensures ok { OnOk result (MayWrite (world_of self.now) s key (open_of session.now)) }
        ensures err { IfErr result
            (λ why. MeetsWrite (world_of self.now) s key (open_of session.now) why) }
    {
        if is_late(&self.history, session, key) {
            return Err(Refused::By(Refusal::Conflict));
        }
        match holder(&self.sessions, s, key) {
            None => Ok(()),
            Some(o) => {
                if closes_ring(&self.waits, s, o) {
                    Err(Refused::Deadlock)
                } else {
                    Err(Refused::By(Refusal::Busy(o)))
                }
            }
        }
    }

    /// Whether the session may insert the key; nothing is changed. Refusals in order: NoSuchSession, NotOpen, Failed, CursorOpen,
    /// AlreadyThere, Conflict, and where another session holds the key Deadlock or Busy.
    pub fn check_insert(&self, s: u8, key: u64) -> Result<(), Refused>
        ensures ok { OnOk result (MayInsert (world_of self.now) s key) }
        ensures err { IfErr result (λ why. RefusesInsert (world_of self.now) s key why) }
    {
        match self.writer(s) {
            Ok(session) => match session.view(&self.history, key) {
                Some(_) => Err(Refused::By(Refusal::AlreadyThere)),
                None => self.check_conflicts(s, session, key),
            },
            Err(why) => Err(Refused::By(why)),
        }
    }

    /// Whether the session may update or delete the key; nothing is changed. Refusals in order: NoSuchSession, NotOpen, Failed,
    /// CursorOpen, NotThere, Conflict, and where another session holds the key Deadlock or Busy.
    pub fn check_replace(&self, s: u8, key: u64) -> Result<(), Refused>
        ensures ok { OnOk result (MayReplace (world_of self.now) s key) }
        ensures err { IfErr result (λ why. RefusesReplace (world_of self.now) s key why) }
    {
        match self.writer(s) {
            Ok(session) => match session.view(&self.history, key) {
                Some(_) => self.check_conflicts(s, session, key),
                None => Err(Refused::By(Refusal::NotThere)),
            },
            Err(why) => Err(Refused::By(why)),
        }
    }
}
