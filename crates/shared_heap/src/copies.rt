//! Copies of replies, in room that is made before the step.

ghost use Rattle.std.specs.Prelude.{◌≡◌, ◌≤◌, ◌++◌, take, length, vec_len, vec_capacity, IfOk, false};
ghost use Rattle.shared_heap.specs.Replies.{IsSame, ListFits, HasRoomFor, is_busy_reply};

use session_core::{Engine, Refusal, Reply, Row, Step};
use std::alloc::{AllocError, Global};
use std::marker::Model;
use tuple_header::MOST_SLOTS;

/// Room for the copy of a reply. Contracts see it as how many rows it has room for, and how many keys.
#[derive(Drop)]
pub struct Spare {
    rows: Vec<Row>,
    keys: Vec<u64>,
}

impl Model for Spare {
    ghost use Rattle.std.specs.Prelude.{◌≡◌, ℕ, min, vec_len, vec_capacity};

    ghost Value = { ℕ };

    ghost view = { λ s. min (vec_capacity s.rows) (vec_capacity s.keys) };

    ghost invariant = { λ s. (vec_len s.rows ≡ 0) × (vec_len s.keys ≡ 0) };
}

/// How many rows or keys the engine's reply to a step has at most: no more than were asked for, nor than an index has entries or a page
/// slots.
fn most_rows(engine: &Engine, step: &Step) -> usize
    ensures { HasRoomFor engine.now step.now result }
{
    match step {
        Step::Next(_, count) => {
            let asked = u64::from((*count).max(1));
            let most = asked.min(engine.most_entries()) as usize;
            most.max(usize::from(MOST_SLOTS))
        }
        Step::TakePage(_, _) => usize::from(MOST_SLOTS),
        _ => 0,
    }
}

/// Makes the room that a copy of the engine's reply to this step needs.
pub fn spare_for(alloc: Global, engine: &Engine, step: &Step) -> Result<Spare, AllocError>
    ensures { IfOk result (λ spare. HasRoomFor engine.now step.now spare) }
{
    let most = most_rows(engine, step);
    let rows = Vec::with_capacity(alloc, most)?;
    let keys = Vec::with_capacity(alloc, most)?;
    Ok(Spare { rows, keys })
}

/// Copies of all rows, in a list with room for them.
fn copy_rows(rows: &[Row], room: &mut Vec<Row>)
    requires empty { vec_len room.old ≡ 0 }
    requires fits { length rows.now ≤ vec_capacity room.old }
    ensures { room.new.items ≡ rows.now }
{
    for row in rows {
        room.push_reserved(row.copy());
    }
}

/// Copies of all keys, in a list with room for them.
fn copy_keys(keys: &[u64], room: &mut Vec<u64>)
    requires empty { vec_len room.old ≡ 0 }
    requires fits { length keys.now ≤ vec_capacity room.old }
    ensures { room.new.items ≡ keys.now }
{
    for key in keys {
        room.push_reserved(*key);
    }
}

/// A copy of the reply, in room that was made for it. It takes no memory.
pub fn copy_reply(reply: &Reply, spare: Spare) -> Reply
    requires { ListFits reply.now spare }
    ensures { IsSame reply.now result }
{
    match reply {
        Reply::Done => Reply::Done,
        Reply::Found(None) => Reply::Found(None),
        Reply::Found(Some(row)) => Reply::Found(Some(row.copy())),
        Reply::Committed => Reply::Committed,
        Reply::RolledBack => Reply::RolledBack,
        Reply::Rows(rows) => {
            let mut room = spare.rows;
            copy_rows(rows.as_slice(), &mut room);
            Reply::Rows(room)
        }
        Reply::Keys(keys) => {
            let mut room = spare.keys;
            copy_keys(keys.as_slice(), &mut room);
            Reply::Keys(room)
        }
        Reply::End => Reply::End,
        Reply::Worked(piece) => Reply::Worked(*piece),
        Reply::Ended(first) => Reply::Ended(*first),
        Reply::Refused(refusal) => Reply::Refused(*refusal),
    }
}

/// True where the step was refused as Busy.
pub(crate) fn is_busy(reply: &Reply) -> bool
    ensures { result ≡ is_busy_reply reply.now }
{
    matches!(reply, Reply::Refused(Refusal::Busy(_)))
}
