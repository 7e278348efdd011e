//! The tests of a session's steps, and their transitions.

ghost use Rattle.std.specs.Prelude.{◌≡◌, length, OnOk, OnErr, IfErr, IfOk, IsSome, Some};
ghost use Rattle.history.specs.World.{world_sessions, by_snapshot, by_statement};
ghost use Rattle.history.specs.Moves.{put, free_to_scan, new_session, begun, change, rolled_back_to, aborted, committed_by, stepped, with_write};
ghost use Rattle.plain_history.specs.Plain.{isolation_of, world_of};
ghost use Rattle.calls.specs.Bars.{BarsOpen, BarsReady};
ghost use Rattle.plain_history.specs.Answers.{after_refusal, MayBegin, RefusesBegin, RefusesSave, RefusesRollBack, RefusesRelease, PlainReads, MaySave, MayRollBack, MayRelease, MayCommit, WouldCommit};

use crate::plain::{PlainHistory, PlainIsolation, PlainSession};
use crate::refusal::Refused;
use calls::Refusal;
use keyed_history::{KeptRow, PlainLevel};
use std::alloc::AllocError;
use tuple_header::Row;

impl PlainHistory {
    /// What a refused step leaves.
    pub fn refuse(&mut self, s: u8, why: Refused)
        ensures { world_of self.new ≡ after_refusal (world_of self.old) s why }
    {
        match why {
            Refused::By(Refusal::Conflict) => self.fail(s),
            Refused::By(Refusal::Busy(o)) => self.wait_for(s, o),
            Refused::Deadlock => self.fail(s),
            _ => self.end_wait(s),
        }
    }

    /// Whether the session may begin; nothing is changed. Refusals: NoSuchSession, AlreadyOpen.
    pub fn check_begin(&self, s: u8) -> Result<(), Refusal>
        ensures ok { OnOk result (MayBegin (world_of self.now) s) }
        ensures err { IfErr result (λ why. RefusesBegin (world_of self.now) s why) }
    {
        match self.open_session(s) {
            Ok(_) => Err(Refusal::AlreadyOpen),
            Err(Refusal::NotOpen) => Ok(()),
            Err(_) => Err(Refusal::NoSuchSession),
        }
    }

    /// The session is open, and reads what has committed until now.
    pub fn start(&mut self, s: u8)
        ensures { world_of self.new
            ≡ begun (by_snapshot (length self.old.history)) (world_of self.old) s }
    {
        let start = self.history.len();
        self.start_by(s, PlainIsolation::BySnapshot(start));
    }

    /// The session is open, and each of its statements reads what has committed until then. (An isolation is named in the crate alone.)
    pub fn start_by_statement(&mut self, s: u8)
        ensures { world_of self.new ≡ begun by_statement (world_of self.old) s }
    {
        self.start_by(s, PlainIsolation::ByStatement);
    }

    fn start_by(&mut self, s: u8, isolation: PlainIsolation)
        ensures { world_of self.new
            ≡ free_to_scan
            (put (world_of self.old) s (Some (new_session (isolation_of isolation)))) s }
    {
        let session = PlainSession {
            isolation,
            newest: PlainLevel::new(self.alloc),
            older: Vec::new(self.alloc),
            failed: false,
            cursor: None,
            has_written: false,
        };
        self.put(s, Some(session));
        self.may_scan_all(s);
    }

    /// The row that the session reads. It is no step, and ends no wait. Refusals in order: NoSuchSession, NotOpen, Failed.
    pub fn read(&self, s: u8, key: u64) -> Result<Option<Row>, Refusal>
        ensures ok { IfOk result (λ row. PlainReads (world_of self.now) s key row) }
        ensures err { IfErr result (λ why. BarsReady (world_sessions (world_of self.now)) s why) }
    {
        match self.ready_session(s) {
            Ok(session) => Ok(session.view(&self.history, key)),
            Err(why) => Err(why),
        }
    }

    /// The session writes the row. Where memory is refused only its own wait ends.
    pub fn put_row(&mut self, s: u8, row: Row) -> Result<(), AllocError>
        ensures ok { OnOk result
            (world_of self.new
            ≡ change (world_of self.old) s (with_write self.old.history row.key (Some row))) }
        ensures err { OnErr result (world_of self.new ≡ stepped (world_of self.old) s) }
    {
        match KeptRow::keep(self.alloc, &row) {
            Ok(kept) => self.write(s, row.key, Some(kept)),
            Err(fault) => {
                self.end_wait(s);
                Err(fault)
            }
        }
    }

    /// The session writes that the key has no row. Where memory is refused only its own wait ends. (A caller has no row to name.)
    pub fn take_row(&mut self, s: u8, key: u64) -> Result<(), AllocError>
        ensures ok { OnOk result
            (world_of self.new
            ≡ change (world_of self.old) s (with_write self.old.history key None)) }
        ensures err { OnErr result (world_of self.new ≡ stepped (world_of self.old) s) }
    {
        self.write(s, key, None)
    }

    /// Whether the session may make a savepoint; nothing is changed. Refusals in order: NoSuchSession, NotOpen, Failed, CursorOpen,
    /// TooDeep.
    pub fn check_save(&self, s: u8) -> Result<(), Refusal>
        ensures ok { OnOk result (MaySave (world_of self.now) s) }
        ensures err { IfErr result (λ why. RefusesSave (world_of self.now) s why) }
    {
        match self.writer(s) {
            Ok(session) => {
                if session.older.len() < 32 {
                    Ok(())
                } else {
                    Err(Refusal::TooDeep)
                }
            }
            Err(why) => Err(why),
        }
    }

    /// Whether the session may go back to a savepoint; nothing is changed. Refusals in order: NoSuchSession, NotOpen, CursorOpen,
    /// NoSavepoint.
    pub fn check_roll_back(&self, s: u8) -> Result<(), Refusal>
        ensures ok { OnOk result (MayRollBack (world_of self.now) s) }
        ensures err { IfErr result (λ why. RefusesRollBack (world_of self.now) s why) }
    {
        match self.open_session(s) {
            Ok(session) => {
                if let Some(_) = &session.cursor {
                    Err(Refusal::CursorOpen)
                } else if session.older.is_empty() {
                    Err(Refusal::NoSavepoint)
                } else {
                    Ok(())
                }
            }
            Err(why) => Err(why),
        }
    }

    /// What was written since the newest savepoint is gone, and a failed session is usable again.
    pub fn go_back(&mut self, s: u8)
        ensures { world_of self.new ≡ rolled_back_to (world_of self.old) s }
    {
        self.roll_back(s);
        self.wake(s);
    }

    /// Whether the session may forget a savepoint; nothing is changed. Refusals in order: NoSuchSession, NotOpen, Failed,
    /// CursorOpen, NoSavepoint.
    pub fn check_release(&self, s: u8) -> Result<(), Refusal>
        ensures ok { OnOk result (MayRelease (world_of self.now) s) }
        ensures err { IfErr result (λ why. RefusesRelease (world_of self.now) s why) }
    {
        match self.writer(s) {
            Ok(session) => {
                if session.older.is_empty() {
                    Err(Refusal::NoSavepoint)
                } else {
                    Ok(())
                }
            }
            Err(why) => Err(why),
        }
    }

    /// Whether the session is open; nothing is changed. Refusals in order: NoSuchSession, NotOpen.
    pub fn check_open(&self, s: u8) -> Result<(), Refusal>
        ensures ok { OnOk result (IsSome ((world_of self.now).session s)) }
        ensures err { IfErr result (λ why. BarsOpen (world_sessions (world_of self.now)) s why) }
    {
        match self.open_session(s) {
            Ok(_) => Ok(()),
            Err(why) => Err(why),
        }
    }

    /// The session is idle, and what it wrote is gone.
    pub fn end(&mut self, s: u8)
        ensures { world_of self.new ≡ aborted (world_of self.old) s }
    {
        self.put(s, None);
        self.wake(s);
    }

    /// What the session wrote joins the history, and the session is idle. Where memory is refused all is as it was.
    pub fn take_in(&mut self, s: u8) -> Result<(), AllocError>
        requires { MayCommit (world_of self.old) s }
        ensures ok { OnOk result (world_of self.new ≡ committed_by (world_of self.old) s) }
        ensures err { OnErr result (world_of self.new ≡ world_of self.old) }
    {
        let transaction = self.transaction(s)?;
        self.append(transaction)?;
        self.end(s);
        Ok(())
    }

    /// The transaction that the session would commit.
    fn transaction(&self, s: u8) -> Result<PlainLevel, AllocError>
        requires { MayCommit (world_of self.now) s }
        ensures { IfOk result (λ t. WouldCommit (world_of self.now) s t) }
    {
        match &self.sessions[s as usize] {
            Some(session) => session.all_writes(self.alloc),
            None => Ok(PlainLevel::new(self.alloc)),
        }
    }
}
