//! What a step changes: one session, the waits, or the history. Each call here says what becomes of all, also where it changes one part.

ghost use Rattle.std.specs.Prelude.{◌≡◌, OnOk, OnErr, Some, None};
ghost use Rattle.std.specs.Option.{option_map};
ghost use Rattle.history.specs.Moves.{stepped, put, change, free_to_scan, as_failed, with_write, with_savepoint, to_savepoint, without_savepoint, blocked_by, awaited_no_more, without_cursor};
ghost use Rattle.keyed_history.specs.Places.{IsRowOf};
ghost use Rattle.plain_history.specs.Plain.{open_of, world_of};
ghost use Rattle.plain_history.specs.Answers.{PlainBecomes, PlainStays, with_transaction};

use crate::plain::{PlainHistory, PlainSession};
use keyed_history::{KeptRow, KeyedHistory, PlainLevel, PlainWrite};
use std::alloc::{AllocError, Global};
use std::mem;
use waits::wake_all;

fn fail(session: &mut Option<PlainSession>)
    ensures { PlainBecomes session.old session.new as_failed }
{
    if let Some(session) = session {
        session.failed = true;
    }
}

fn write(
    session: &mut Option<PlainSession>,
    history: &KeyedHistory,
    key: u64,
    row: Option<KeptRow>,
) -> Result<(), AllocError>
    requires { IsRowOf key row }
    ensures ok { OnOk result
        (PlainBecomes session.old session.new (with_write history.now key row)) }
    ensures err { OnErr result (PlainStays session.old session.new) }
{
    if let Some(session) = session {
        let start = session.start_now(history);
        session.newest.push(PlainWrite::new(start, key, row))?;
        session.has_written = true;
    }
    Ok(())
}

fn save(session: &mut Option<PlainSession>, alloc: Global) -> Result<(), AllocError>
    ensures ok { OnOk result (PlainBecomes session.old session.new with_savepoint) }
    ensures err { OnErr result (PlainStays session.old session.new) }
{
    if let Some(session) = session {
        session.older.insert(0, PlainLevel::new(alloc))?;
        let level = mem::replace(&mut session.newest, PlainLevel::new(alloc));
        session.older[0] = level;
    }
    Ok(())
}

fn roll_back(session: &mut Option<PlainSession>)
    ensures { PlainBecomes session.old session.new to_savepoint }
{
    if let Some(session) = session {
        session.newest.clear();
        session.failed = false;
    }
}

fn release(session: &mut Option<PlainSession>) -> Result<(), AllocError>
    ensures ok { OnOk result (PlainBecomes session.old session.new without_savepoint) }
    ensures err { OnErr result (PlainStays session.old session.new) }
{
    if let Some(session) = session {
        session.join_newest()?;
    }
    Ok(())
}

fn close(session: &mut Option<PlainSession>)
    ensures { PlainBecomes session.old session.new without_cursor }
{
    if let Some(session) = session {
        session.cursor = None;
    }
}

impl PlainHistory {
    /// The session's own wait ends, as by each of its steps. So is done a step that is refused for what the history doesn't know.
    pub fn end_wait(&mut self, s: u8)
        ensures { world_of self.new ≡ stepped (world_of self.old) s }
    {
        self.waits[s as usize] = None;
    }

    /// The session waits for o.
    pub fn wait_for(&mut self, s: u8, o: u8)
        ensures { world_of self.new ≡ blocked_by (world_of self.old) s o }
    {
        self.waits[s as usize] = Some(o);
    }

    /// For whom the session waits, if it waits.
    pub fn wait_of(&self, s: u8) -> Option<u8>
        ensures { result ≡ (world_of self.now).waits_for s }
    {
        self.waits[s as usize]
    }

    /// Nobody waits for the session any more.
    pub(crate) fn wake(&mut self, s: u8)
        ensures { world_of self.new ≡ awaited_no_more (world_of self.old) s }
    {
        wake_all(&mut self.waits, s);
    }

    pub(crate) fn put(&mut self, s: u8, session: Option<PlainSession>)
        ensures { world_of self.new ≡ put (world_of self.old) s (option_map open_of session) }
    {
        self.waits[s as usize] = None;
        self.sessions[s as usize] = session;
    }

    /// No index is too new for the session.
    pub(crate) fn may_scan_all(&mut self, s: u8)
        ensures { world_of self.new ≡ free_to_scan (world_of self.old) s }
    {
        self.too_new[s as usize] = [false; 5];
    }

    pub(crate) fn fail(&mut self, s: u8)
        ensures { world_of self.new ≡ change (world_of self.old) s as_failed }
    {
        self.waits[s as usize] = None;
        fail(&mut self.sessions[s as usize]);
    }

    pub(crate) fn write(&mut self, s: u8, key: u64, row: Option<KeptRow>) -> Result<(), AllocError>
        requires { IsRowOf key row }
        ensures ok { OnOk result
            (world_of self.new
            ≡ change (world_of self.old) s (with_write self.old.history key row)) }
        ensures err { OnErr result (world_of self.new ≡ stepped (world_of self.old) s) }
    {
        self.waits[s as usize] = None;
        write(&mut self.sessions[s as usize], &self.history, key, row)
    }

    /// The session begins a level. Where memory is refused only its own wait ends.
    pub fn save(&mut self, s: u8) -> Result<(), AllocError>
        ensures ok { OnOk result (world_of self.new ≡ change (world_of self.old) s with_savepoint) }
        ensures err { OnErr result (world_of self.new ≡ stepped (world_of self.old) s) }
    {
        self.waits[s as usize] = None;
        save(&mut self.sessions[s as usize], self.alloc)
    }

    /// What the newest savepoint's level has is dropped.
    pub(crate) fn roll_back(&mut self, s: u8)
        ensures { world_of self.new ≡ change (world_of self.old) s to_savepoint }
    {
        self.waits[s as usize] = None;
        roll_back(&mut self.sessions[s as usize]);
    }

    /// The newest level joins the one below, if there is one. Where memory is refused only the session's own wait ends.
    pub fn join(&mut self, s: u8) -> Result<(), AllocError>
        ensures ok { OnOk result
            (world_of self.new ≡ change (world_of self.old) s without_savepoint) }
        ensures err { OnErr result (world_of self.new ≡ stepped (world_of self.old) s) }
    {
        self.waits[s as usize] = None;
        release(&mut self.sessions[s as usize])
    }

    /// The cursor is closed.
    pub fn shut(&mut self, s: u8)
        ensures { world_of self.new ≡ change (world_of self.old) s without_cursor }
    {
        self.waits[s as usize] = None;
        close(&mut self.sessions[s as usize]);
    }

    /// The transaction joins the history.
    pub(crate) fn append(&mut self, transaction: PlainLevel) -> Result<(), AllocError>
        ensures ok { OnOk result
            (world_of self.new ≡ with_transaction (world_of self.old) transaction) }
        ensures err { OnErr result (world_of self.new ≡ world_of self.old) }
    {
        self.history.push(transaction)
    }
}
