//! Steps of sessions by a call each, which makes no `Step` and no `Reply`.

ghost use Rattle.std.specs.Prelude.{◌≡◌, Ok};
ghost use Rattle.std.specs.Option.{is_some};
ghost use Rattle.calls.specs.declared.step.Step.{Step};
ghost use Rattle.session_steps.specs.Replies.{reply_to};
ghost use Rattle.session_steps.specs.Writes.{worded};
ghost use Rattle.session_core.specs.Clauses.{WaitingFollows, WaitingExact};
ghost use Rattle.session_core.specs.Gets.{EngineGets, LooksUp, place_of_found};

use crate::engine::Engine;
use calls::{Refusal, Row};
use session_steps::{Ack, SessionEngine};
use tuple_header::{RowPlace, RowRef};

/// Writes the row that was found to a place, if there is one, and answers whether there is.
#[inline(always)]
fn put_found(found: Option<RowRef<'_>>, place: &mut RowPlace) -> bool
    ensures found { result ≡ is_some found.entry }
    ensures placed { place.new ≡ place_of_found (Ok found.entry) place.old }
{
    match found {
        Some(row) => {
            row.put_into(place);
            true
        }
        None => false,
    }
}

/// Looks for the row of the key that the session reads, and writes it to a place, if there is one.
#[inline(always)]
fn look_up_into(
    core: &SessionEngine,
    s: u8,
    key: u64,
    place: &mut RowPlace,
) -> Result<bool, Refusal>
    ensures { LooksUp core.now s key place.old result place.new }
{
    match core.look_up(s, key) {
        Ok(found) => Ok(put_found(found, place)),
        Err(refusal) => Err(refusal),
    }
}

impl Engine {
    /// Opens the session: it reads what was committed by now. Refusals in order: NoSuchSession, AlreadyOpen, and NoMemory,
    /// which comes only where its snapshot lists more than 8 ids.
    #[inline(always)]
    pub fn begin(&mut self, s: u8) -> Result<Ack, Refusal>
        ensures follows { WaitingFollows self.old (Step.Begin s) (reply_to result) self.new }
        ensures exact { WaitingExact self.old (Step.Begin s) (reply_to result) self.new }
    {
        self.disturb(true);
        self.core.fact_set_up();
        let answer = self.core.begin(s);
        self.note_answer(s, false, answer)
    }

    /// Writes a row of a key that has none. Refusals in order: NoSuchSession, NotOpen, Failed, CursorOpen, AlreadyThere, Conflict,
    /// Busy or Deadlock, NeedsFreeze, NoRoom, NoMemory.
    #[inline(always)]
    pub fn insert(&mut self, s: u8, row: &Row) -> Result<Ack, Refusal>
        ensures follows { WaitingFollows self.old (Step.Insert s (worded row.now))
            (reply_to result) self.new }
        ensures exact { WaitingExact self.old (Step.Insert s (worded row.now))
            (reply_to result) self.new }
    {
        self.disturb(true);
        self.core.fact_set_up();
        let answer = self.core.insert_row(s, row);
        self.note_answer(s, false, answer)
    }

    /// Writes another row of a key that has one. Refusals in order: NoSuchSession, NotOpen, Failed, CursorOpen, NotThere, Conflict,
    /// Busy or Deadlock, NeedsFreeze, NoMemory, NoRoom.
    #[inline(always)]
    pub fn update(&mut self, s: u8, row: &Row) -> Result<Ack, Refusal>
        ensures follows { WaitingFollows self.old (Step.Update s (worded row.now))
            (reply_to result) self.new }
        ensures exact { WaitingExact self.old (Step.Update s (worded row.now))
            (reply_to result) self.new }
    {
        self.disturb(true);
        self.core.fact_set_up();
        let answer = self.core.update_row(s, row);
        self.note_answer(s, false, answer)
    }

    /// Takes the row of a key away. Refusals in order: NoSuchSession, NotOpen, Failed, CursorOpen, NotThere, Conflict,
    /// Busy or Deadlock, NeedsFreeze, NoMemory.
    #[inline(always)]
    pub fn delete(&mut self, s: u8, key: u64) -> Result<Ack, Refusal>
        ensures follows { WaitingFollows self.old (Step.Delete s key) (reply_to result) self.new }
        ensures exact { WaitingExact self.old (Step.Delete s key) (reply_to result) self.new }
    {
        self.disturb(true);
        self.core.fact_set_up();
        let answer = self.core.delete(s, key);
        self.note_answer(s, false, answer)
    }

    /// Makes what the session wrote part of the history, unless it has failed, and closes it. Refusals in order:
    /// NoSuchSession, NotOpen. It takes no memory.
    #[inline(always)]
    pub fn commit(&mut self, s: u8) -> Result<Ack, Refusal>
        ensures follows { WaitingFollows self.old (Step.Commit s) (reply_to result) self.new }
        ensures exact { WaitingExact self.old (Step.Commit s) (reply_to result) self.new }
    {
        self.disturb(true);
        self.core.fact_set_up();
        let answer = self.core.commit(s);
        self.note_answer(s, true, answer)
    }

    /// Drops what the session wrote, and closes it. Refusals in order: NoSuchSession, NotOpen. It takes no memory.
    #[inline(always)]
    pub fn abort(&mut self, s: u8) -> Result<Ack, Refusal>
        ensures follows { WaitingFollows self.old (Step.Abort s) (reply_to result) self.new }
        ensures exact { WaitingExact self.old (Step.Abort s) (reply_to result) self.new }
    {
        self.disturb(true);
        self.core.fact_set_up();
        let answer = self.core.abort(s);
        self.note_answer(s, true, answer)
    }

    /// Writes the row of the key that the session reads to the caller's place, where there is one, and answers whether there is. Else
    /// the place is as it was, and so are always the bytes behind the row's body. Refusals in order: NoSuchSession, NotOpen, Failed.
    /// It takes no memory.
    #[inline(always)]
    pub fn get(&mut self, s: u8, key: u64, place: &mut RowPlace) -> Result<bool, Refusal>
        ensures { EngineGets self.old s key place.old result place.new self.new }
    {
        self.disturb(true);
        self.waits.end(s);
        look_up_into(&self.core, s, key, place)
    }
}
