//! What may be answered to one who asks for rows.

ghost use Rattle.std.specs.Prelude.{[], ◌≡◌, ◌↔◌, ◌<◌, ℕ, IsTrue, Some, length, max, map, take};
ghost use Rattle.refinement.specs.Allowed.{AllowsReply};
ghost use Rattle.history.specs.World.{OpenSession, IsReady, view};
ghost use Rattle.history.specs.Cursors.{AreOf, ArePart, IsOver, HandsOutPart, HandsOutKeys, keys_of};
ghost use Rattle.plain_cursor.specs.Order.{row_of_key, IsInOrder};
ghost use Rattle.plain_cursor.specs.Hands.{cursor_of};
ghost use Rattle.plain_history.specs.Plain.{world_of};
ghost use Rattle.plain_history.specs.Answers.{MayCommit};
ghost use Rattle.judge.specs.Rulings.{IsReached};
ghost use Rattle.judge.specs.Handing.{MayHand, MayShow, AreTheirs, HaveTheirOwnKeys, StandsBefore};

use crate::compare::{same_reply, same_row, same_rows};
use calls::{Refusal, Reply, Step};
use plain_cursor::{PlainCursor, PlainOrder};
use plain_history::PlainHistory;
use tuple_header::Row;

// Does a row before the one at this place have its key?
fn stands_before(rows: &[Row], i: usize) -> bool
    requires { i < length rows.now }
    ensures { IsTrue result ↔ StandsBefore rows.now i }
{
    for j in 0..i {
        if rows[j].key == rows[i].key {
            return true;
        }
    }
    false
}

// Has each row its own key?
fn are_apart(rows: &[Row]) -> bool
    ensures { IsTrue result ↔ HaveTheirOwnKeys rows.now }
{
    for i in 0..rows.len() {
        if stands_before(rows, i) {
            return false;
        }
    }
    true
}

// Is it the row of its key?
fn is_of(rest: &[Row], row: &Row) -> bool
    ensures { IsTrue result ↔ (row_of_key rest.now row.now.key ≡ Some row.now) }
{
    for other in rest {
        if other.key == row.key {
            return same_row(other, row);
        }
    }
    false
}

fn are_all_of(rest: &[Row], rows: &[Row]) -> bool
    ensures { IsTrue result ↔ AreTheirs (row_of_key rest.now) rows.now }
{
    for i in 0..rows.len() {
        if !is_of(rest, &rows[i]) {
            return false;
        }
    }
    true
}

// Are these some of the rest?
fn is_part(rest: &[Row], rows: &[Row]) -> bool
    ensures { IsTrue result ↔ ArePart (row_of_key rest.now) rows.now }
{
    !rows.is_empty() && are_all_of(rest, rows) && are_apart(rows)
}

/// The next n of the rest, or all that are left. Asking for none counts as one.
pub(crate) fn next_of(rest: &[Row], n: u16) -> &[Row]
    ensures { result.now ≡ take (max 1 n) rest.now }
{
    let count = if n == 0 { 1 } else { n as usize };
    if count < rest.len() {
        &rest[..count]
    } else {
        rest
    }
}

// Are these the next n, or all that are left?
fn is_next(rest: &[Row], n: u16, rows: &[Row]) -> bool
    ensures { IsTrue result ↔ ((0 < length rest.now) × (rows.now ≡ take (max 1 n) rest.now)) }
{
    !rest.is_empty() && same_rows(rows, next_of(rest, n))
}

fn are_keys_of(keys: &[u64], rows: &[Row]) -> bool
    ensures { IsTrue result ↔ (keys.now ≡ keys_of rows.now) }
{
    if keys.len() != rows.len() {
        return false;
    }
    for i in 0..keys.len() {
        if keys[i] != rows[i].key {
            return false;
        }
    }
    true
}

// Are these the keys of the next n, or of all that are left?
fn are_next_keys(rest: &[Row], n: u16, keys: &[u64]) -> bool
    ensures { IsTrue result
        ↔ ((0 < length rest.now) × (keys.now ≡ keys_of (take (max 1 n) rest.now))) }
{
    !rest.is_empty() && are_keys_of(keys, next_of(rest, n))
}

fn may_hand_rows(cursor: &PlainCursor, n: u16, rows: &[Row]) -> bool
    ensures { IsTrue result
        ↔ HandsOutPart (cursor_of cursor.now).order n (cursor_of cursor.now).rest rows.now }
{
    match cursor.order() {
        PlainOrder::Index(_) => is_next(cursor.rest(), n, rows),
        PlainOrder::Heap => is_part(cursor.rest(), rows),
        PlainOrder::Keys => false,
    }
}

fn may_hand_keys(cursor: &PlainCursor, n: u16, keys: &[u64]) -> bool
    ensures { IsTrue result
        ↔ HandsOutKeys (cursor_of cursor.now).order n (cursor_of cursor.now).rest keys.now }
{
    match cursor.order() {
        PlainOrder::Keys => are_next_keys(cursor.rest(), n, keys),
        _ => false,
    }
}

// Whether there are no rows, said of the list.
fn is_none(rest: &[Row]) -> bool
    ensures { IsTrue result ↔ (rest.now ≡ []) }
{
    rest.is_empty()
}

// Whether the cursor has none left. (The other speaks of the list, this of the cursor.)
pub(crate) fn is_over(cursor: &PlainCursor) -> bool
    ensures { IsTrue result ↔ IsOver (cursor_of cursor.now).rest }
{
    is_none(cursor.rest())
}

fn may_hand(cursor: &PlainCursor, n: u16, reply: &Reply) -> bool
    ensures { IsTrue result ↔ MayHand (cursor_of cursor.now) n reply.now }
{
    match reply {
        Reply::Rows(rows) => may_hand_rows(cursor, n, rows.as_slice()),
        Reply::Keys(keys) => may_hand_keys(cursor, n, keys.as_slice()),
        Reply::End => is_over(cursor),
        Reply::Refused(Refusal::NoMemory) => !is_over(cursor),
        _ => false,
    }
}

/// Whether that may be answered to one who asks the cursor for n.
pub(crate) fn may_answer_next(plain: &PlainHistory, s: u8, n: u16, reply: &Reply) -> bool
    requires { IsReached (world_of plain.now) }
    ensures { IsTrue result ↔ AllowsReply (world_of plain.now) (Step.Next s n) reply.now }
{
    match plain.cursor(s) {
        Ok(cursor) => may_hand(cursor, n, reply),
        Err(why) => same_reply(&Reply::Refused(why), reply),
    }
}

fn is_found(found: &Option<Row>, row: &Row) -> bool
    ensures { IsTrue result ↔ (found.now ≡ Some row.now) }
{
    match found {
        Some(found) => same_row(found, row),
        None => false,
    }
}

// Does the session read the row?
fn reads(plain: &PlainHistory, s: u8, row: &Row) -> bool
    requires { IsReached (world_of plain.now) }
    ensures { (m : OpenSession) → IsReady (world_of plain.now) s m
        → IsTrue result ↔ (view plain.now.history m row.now.key ≡ Some row.now) }
{
    match plain.read(s, row.key) {
        Ok(found) => is_found(&found, row),
        Err(_) => false,
    }
}

fn reads_all(plain: &PlainHistory, s: u8, rows: &[Row]) -> bool
    requires { IsReached (world_of plain.now) }
    ensures { (m : OpenSession) → IsReady (world_of plain.now) s m
        → IsTrue result ↔ AreTheirs (view plain.now.history m) rows.now }
{
    for i in 0..rows.len() {
        if !reads(plain, s, &rows[i]) {
            return false;
        }
    }
    true
}

fn may_show(plain: &PlainHistory, s: u8, reply: &Reply) -> bool
    requires { IsReached (world_of plain.now) }
    ensures { (m : OpenSession) → IsReady (world_of plain.now) s m
        → IsTrue result ↔ MayShow (view plain.now.history m) reply.now }
{
    match reply {
        Reply::Rows(rows) => shows(plain, s, rows.as_slice()),
        Reply::Refused(Refusal::NoSuchPage | Refusal::NoMemory) => true,
        _ => false,
    }
}

fn shows(plain: &PlainHistory, s: u8, rows: &[Row]) -> bool
    requires { IsReached (world_of plain.now) }
    ensures { (m : OpenSession) → IsReady (world_of plain.now) s m
        → IsTrue result ↔ AreOf (view plain.now.history m) rows.now }
{
    reads_all(plain, s, rows) && are_apart(rows)
}

/// Whether that may be answered to one who takes a page.
pub(crate) fn may_answer_page(plain: &PlainHistory, s: u8, page: u32, reply: &Reply) -> bool
    requires { IsReached (world_of plain.now) }
    ensures { IsTrue result ↔ AllowsReply (world_of plain.now) (Step.TakePage s page) reply.now }
{
    match plain.check_ready(s) {
        Ok(()) => may_show(plain, s, reply),
        Err(why) => same_reply(&Reply::Refused(why), reply),
    }
}
