//! The tests of a cursor's steps, and their transitions.

ghost use Rattle.std.specs.Prelude.{◌≡◌, Some, OnOk, OnErr, IfOk, IfErr};
ghost use Rattle.history.specs.World.{OpenSession, IsReady, world_sessions};
ghost use Rattle.history.specs.Moves.{change, stepped, with_taken};
ghost use Rattle.history.specs.Cursors.{keys_of};
ghost use Rattle.plain_cursor.specs.Hands.{cursor_of};
ghost use Rattle.plain_history.specs.Plain.{world_of};
ghost use Rattle.calls.specs.Bars.{BarsFree, BarsWithCursor};
ghost use Rattle.plain_history.specs.Answers.{PlainBecomes, PlainStays, RefusesBounds, RefusesIndex, MayOpen, MayOpenWithin, MayOpenIndex, HasPlainCursor, with_plain_cursor};

use crate::plain::{PlainHistory, PlainSession};
use crate::rows::rows_of;
use calls::Refusal;
use keyed_history::KeyedHistory;
use plain_cursor::{Bounds, PlainCursor, PlainOrder, all_keys};
use std::alloc::{AllocError, Global};
use tuple_header::Row;

fn set_cursor(
    session: &mut Option<PlainSession>,
    history: &KeyedHistory,
    alloc: Global,
    order: PlainOrder,
    bounds: Bounds,
) -> Result<(), AllocError>
    ensures ok { OnOk result
        (PlainBecomes session.old session.new (with_plain_cursor history.now order bounds)) }
    ensures err { OnErr result (PlainStays session.old session.new) }
{
    if let Some(session) = session {
        let rest = rows_of(alloc, history, session, order.index(), bounds)?;
        session.cursor = Some(PlainCursor::new(order, rest));
    }
    Ok(())
}

fn pass_keys(session: &mut Option<PlainSession>, keys: &[u64])
    ensures { PlainBecomes session.old session.new (with_taken keys.now) }
{
    if let Some(session) = session {
        if let Some(cursor) = &mut session.cursor {
            cursor.pass_keys(keys);
        }
    }
}

impl PlainHistory {
    /// The session's cursor; nothing is changed. Refusals in order: NoSuchSession, NotOpen, Failed, NoCursor.
    pub fn cursor(&self, s: u8) -> Result<&PlainCursor, Refusal>
        ensures ok { IfOk result
            (λ c. (m : OpenSession) × IsReady (world_of self.now) s m
            × (m.cursor ≡ Some (cursor_of c.now))) }
        ensures err { IfErr result
            (λ why. BarsWithCursor (world_sessions (world_of self.now)) s why) }
    {
        match self.ready_session(s) {
            Ok(session) => match &session.cursor {
                Some(cursor) => Ok(cursor),
                None => Err(Refusal::NoCursor),
            },
            Err(why) => Err(why),
        }
    }

    /// The session's cursor passes over the rows of these keys.
    pub fn pass_keys(&mut self, s: u8, keys: &[u64])
        ensures { world_of self.new ≡ change (world_of self.old) s (with_taken keys.now) }
    {
        self.waits[s as usize] = None;
        pass_keys(&mut self.sessions[s as usize], keys);
    }

    /// The session's cursor passes over these rows. Where memory is refused all is as it was.
    pub fn pass_rows(&mut self, s: u8, rows: &[Row]) -> Result<(), AllocError>
        ensures ok { OnOk result
            (world_of self.new ≡ change (world_of self.old) s (with_taken (keys_of rows.now))) }
        ensures err { OnErr result (world_of self.new ≡ world_of self.old) }
    {
        match all_keys(self.alloc, rows) {
            Ok(keys) => {
                self.pass_keys(s, &keys);
                Ok(())
            }
            Err(fault) => Err(fault),
        }
    }

    /// Whether the session may write, whatever the key; nothing is changed. Refusals in order: NoSuchSession, NotOpen, Failed,
    /// CursorOpen.
    pub fn check_writer(&self, s: u8) -> Result<(), Refusal>
        ensures ok { OnOk result (MayOpen (world_of self.now) s) }
        ensures err { IfErr result (λ why. BarsFree (world_sessions (world_of self.now)) s why) }
    {
        match self.writer(s) {
            Ok(_) => Ok(()),
            Err(why) => Err(why),
        }
    }

    /// Whether the session may open a cursor over keys; nothing is changed. Refusals in order: those of
    /// [`PlainHistory::check_writer`], BadBounds.
    pub fn check_bounds(&self, s: u8, low: i128, high: i128) -> Result<(), Refusal>
        ensures ok { OnOk result (MayOpenWithin (world_of self.now) s low high) }
        ensures err { IfErr result (λ why. RefusesBounds (world_of self.now) s low high why) }
    {
        match self.writer(s) {
            Ok(_) => {
                if high < low {
                    Err(Refusal::BadBounds)
                } else {
                    Ok(())
                }
            }
            Err(why) => Err(why),
        }
    }

    /// Whether the session may open a cursor over the index; nothing is changed. Refusals in order: those of
    /// [`PlainHistory::check_writer`], NoSuchIndex, IndexTooNew, BadBounds.
    pub fn check_index(&self, s: u8, index: u8, low: i128, high: i128) -> Result<(), Refusal>
        ensures ok { OnOk result (MayOpenIndex (world_of self.now) s index low high) }
        ensures err { IfErr result (λ why. RefusesIndex (world_of self.now) s index low high why) }
    {
        match self.writer(s) {
            Ok(_) => {
                if !self.has_index(index) {
                    Err(Refusal::NoSuchIndex)
                } else if self.is_too_new(s, index) {
                    Err(Refusal::IndexTooNew)
                } else if high < low {
                    Err(Refusal::BadBounds)
                } else {
                    Ok(())
                }
            }
            Err(why) => Err(why),
        }
    }

    /// Whether the session has a cursor that it may use; nothing is changed. Refusals in order: NoSuchSession, NotOpen, Failed,
    /// NoCursor.
    pub fn check_cursor(&self, s: u8) -> Result<(), Refusal>
        ensures ok { OnOk result (HasPlainCursor (world_of self.now) s) }
        ensures err { IfErr result
            (λ why. BarsWithCursor (world_sessions (world_of self.now)) s why) }
    {
        match self.ready_session(s) {
            Ok(session) => match &session.cursor {
                Some(_) => Ok(()),
                None => Err(Refusal::NoCursor),
            },
            Err(why) => Err(why),
        }
    }

    /// Opens a cursor over the rows that the session reads and the bounds let pass. Where memory is refused only the session's own
    /// wait ends.
    pub fn open(&mut self, s: u8, order: PlainOrder, bounds: Bounds) -> Result<(), AllocError>
        ensures ok { OnOk result
            (world_of self.new
            ≡ change (world_of self.old) s (with_plain_cursor self.old.history order bounds)) }
        ensures err { OnErr result (world_of self.new ≡ stepped (world_of self.old) s) }
    {
        self.waits[s as usize] = None;
        set_cursor(
            &mut self.sessions[s as usize],
            &self.history,
            self.alloc,
            order,
            bounds,
        )
    }
}
