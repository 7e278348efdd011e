//! The steps of a session that write a key.

ghost use Rattle.std.specs.Prelude.{◌<◌, Some, None};
ghost use Rattle.tuple_header.specs.Version.{rounded_size_of};
ghost use Rattle.page_sheet.specs.Slots.{room_of};
ghost use Rattle.heap_write.specs.Heap.{page_on};
ghost use Rattle.calls.specs.declared.step.Step.{Step};
ghost use Rattle.calls.specs.Words.{FitsRow};
ghost use Rattle.sessions.specs.declared.session.Session.{Session};
ghost use Rattle.session_steps.specs.Exact.{AnswersStep};
ghost use Rattle.session_steps.specs.Replies.{reply_to};
ghost use Rattle.session_steps.specs.Writes.{worded};
ghost use Rattle.session_steps.specs.Tests.{MayAct, MayInsertKey, MayChangeKey};

use crate::engine::SessionEngine;
use crate::outcome::{Ack, write_answer};
use calls::{Refusal, Row, RowIn, fill_row};
use table_scans::no_row;
use xid_circle::Tid;

impl SessionEngine {
    /// Inserts the row, which nothing keeps the session from writing, under the id of its newest level; each level that
    /// has none is given one before.
    fn add(&mut self, s: u8, row: &Row) -> Result<Ack, Refusal>
        requires may { (e : Session) × MayAct self.old s e × MayInsertKey self.old e row.now.key }
        requires fits { FitsRow (worded row.now) }
        ensures { AnswersStep self.old (Step.Insert s (worded row.now)) (reply_to result) self.new }
    {
        let session = self.sessions.open_mut(s);
        // an id of its levels is one of its own ids
        session.own.fact_prefixes();
        write_answer(self.heap.insert(&mut session.own, row))
    }

    /// Writes a row of a key that has none. Refusals in order: NoSuchSession, NotOpen, Failed, CursorOpen, AlreadyThere, Conflict,
    /// Busy, NeedsFreeze, NoRoom, NoMemory.
    pub fn insert_row(&mut self, s: u8, row: &Row) -> Result<Ack, Refusal>
        ensures { AnswersStep self.old (Step.Insert s (worded row.now)) (reply_to result) self.new }
    {
        let session = self.free(s)?;
        // no body in a row is too large
        let _body = row.body.as_slice();
        match self.check_insert(session, row.key) {
            Ok(near) => {
                self.expect_entry(Some(near));
                self.add(s, row)
            }
            Err(refusal) => self.refuse(s, refusal),
        }
    }

    /// As [`SessionEngine::insert_row`], of a row whose body may be of any length: between CursorOpen and AlreadyThere comes TooLarge.
    pub(crate) fn insert(&mut self, s: u8, row: RowIn) -> Result<Ack, Refusal>
        ensures { AnswersStep self.old (Step.Insert s row) (reply_to result) self.new }
    {
        self.free(s)?;
        let mut written = no_row();
        fill_row(&mut written, &row)?;
        self.insert_row(s, &written)
    }

    /// Updates the version at a place to the row, under the id of the session's newest level. The row has no room on the page of that
    /// version, and nothing keeps the session from writing it. The page is pruned at the horizon first.
    fn update_on_full_page(&mut self, s: u8, place: Tid, row: &Row) -> Result<Ack, Refusal>
        requires may { (e : Session) × MayAct self.old s e
            × MayChangeKey self.old e row.now.key place }
        requires fits { FitsRow (worded row.now) }
        requires room { room_of (page_on self.old.heap place.page).slots < rounded_size_of row.now }
        ensures { AnswersStep self.old (Step.Update s (worded row.now)) (reply_to result) self.new }
    {
        let horizon = self.horizon();
        let session = self.sessions.open_mut(s);
        // an id of its levels is one of its own ids
        session.own.fact_prefixes();
        write_answer(
            self.heap
                .update_full_page(&mut session.own, place, row, horizon),
        )
    }

    /// Writes another row of a key that has one. Where the row has no room on the page of the version that it replaces,
    /// that page is pruned first. Refusals in order: NoSuchSession, NotOpen, Failed, CursorOpen, NotThere, Conflict, Busy,
    /// NeedsFreeze, NoMemory, NoRoom.
    pub fn update_row(&mut self, s: u8, row: &Row) -> Result<Ack, Refusal>
        ensures { AnswersStep self.old (Step.Update s (worded row.now)) (reply_to result) self.new }
    {
        let session = self.free(s)?;
        // no body in a row is too large
        let _body = row.body.as_slice();
        match self.check_change(session, row.key) {
            Ok((place, near)) => {
                self.expect_entry(near);
                let Some(keeps_values) = self.heap.fits_beside(place, row) else {
                    return self.update_on_full_page(s, place, row);
                };
                let writer = self.sessions.open_mut(s);
                // an id of its levels is one of its own ids
                writer.own.fact_prefixes();
                // (nothing is pruned, so the sessions aren't looked at for a horizon)
                let own = &mut writer.own;
                write_answer(self.heap.update_on_page(own, place, row, keeps_values))
            }
            Err(refusal) => self.refuse(s, refusal),
        }
    }

    /// As [`SessionEngine::update_row`], of a row whose body may be of any length: between CursorOpen and NotThere comes TooLarge.
    pub(crate) fn update(&mut self, s: u8, row: RowIn) -> Result<Ack, Refusal>
        ensures { AnswersStep self.old (Step.Update s row) (reply_to result) self.new }
    {
        self.free(s)?;
        let mut written = no_row();
        fill_row(&mut written, &row)?;
        self.update_row(s, &written)
    }

    /// Deletes the version at a place, which nothing keeps the session from, under the id of its newest level.
    fn take_away(&mut self, s: u8, key: u64, place: Tid) -> Result<Ack, Refusal>
        requires { (e : Session) × MayAct self.old s e × MayChangeKey self.old e key place }
        ensures { AnswersStep self.old (Step.Delete s key) (reply_to result) self.new }
    {
        let session = self.sessions.open_mut(s);
        // an id of its levels is one of its own ids
        session.own.fact_prefixes();
        write_answer(self.heap.delete(&mut session.own, place))
    }

    /// Takes the row of a key away. Refusals in order: NoSuchSession, NotOpen, Failed, CursorOpen, NotThere, Conflict, Busy,
    /// NeedsFreeze, NoMemory.
    pub fn delete(&mut self, s: u8, key: u64) -> Result<Ack, Refusal>
        ensures { AnswersStep self.old (Step.Delete s key) (reply_to result) self.new }
    {
        let session = self.free(s)?;
        match self.check_change(session, key) {
            Ok((place, _)) => self.take_away(s, key, place),
            Err(refusal) => self.refuse(s, refusal),
        }
    }
}
