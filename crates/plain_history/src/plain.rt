//! The plain program's state: the history and the sessions as lists.

ghost use Rattle.std.specs.Prelude.{◌≡◌, OnOk, OnErr, IfOk};
ghost use Rattle.history.specs.World.{beginning};
ghost use Rattle.history.specs.Moves.{without_savepoint};
ghost use Rattle.plain_history.specs.Plain.{open_of, world_of};

use keyed_history::{KeyedHistory, PlainLevel};
use plain_cursor::PlainCursor;
use std::alloc::{AllocError, Global};
use std::marker::Model;
use tuple_header::COLUMNS;

/// By which snapshot a session reads.
#[derive(Clone, Copy)]
pub enum PlainIsolation {
    /// By that of its beginning, when so many transactions had committed.
    BySnapshot(usize),
    /// By one that each of its statements takes anew.
    ByStatement,
}

/// An open session. The levels of the savepoints below the newest stand in `older`, the newest of them first.
#[derive(Drop)]
pub struct PlainSession {
    pub(crate) isolation: PlainIsolation,
    pub(crate) newest: PlainLevel,
    pub(crate) older: Vec<PlainLevel>,
    pub(crate) failed: bool,
    pub(crate) cursor: Option<PlainCursor>,
    pub(crate) has_written: bool,
}

/// The history, by keys too, and the sessions as lists.
#[derive(Drop)]
pub struct PlainHistory {
    pub(crate) alloc: Global,
    pub(crate) history: KeyedHistory,
    // A place for each number of a u8, of which 0 to 63 are ever taken.
    pub(crate) sessions: Vec<Option<PlainSession>>,
    pub(crate) waits: Vec<Option<u8>>,
    pub(crate) indexed: [bool; COLUMNS],
    // For each place, by the number of an index, whether it is too new for the session there.
    pub(crate) too_new: Vec<[bool; 5]>,
    // A vacuum runs.
    pub(crate) vacuuming: bool,
}

impl Model for PlainHistory {
    ghost use Rattle.std.specs.Prelude.{length};
    ghost use Rattle.plain_history.specs.Plain.{Plain, HasAllPlaces};

    ghost Value = { Plain };

    ghost view = { λ p. record {
      history = p.history;
      sessions = p.sessions.items;
      waits = p.waits.items;
      indexed = p.indexed;
      too_new = p.too_new.items;
      has_vacuum = p.vacuuming;
    } };

    ghost invariant = { λ p.
        HasAllPlaces (length p.sessions.items) (length p.waits.items) (length p.too_new.items) };
}

impl PlainSession {
    /// The newest level joins the one below, if there is one.
    pub(crate) fn join_newest(&mut self) -> Result<(), AllocError>
        ensures ok { OnOk result (open_of self.new ≡ without_savepoint (open_of self.old)) }
        ensures err { OnErr result (open_of self.new ≡ open_of self.old) }
    {
        if self.older.is_empty() {
            return Ok(());
        }
        self.older[0].append(&mut self.newest)?;
        self.newest = self.older.remove(0);
        Ok(())
    }
}

impl PlainHistory {
    /// Nothing has committed, no session is open, these columns are indexed, and no vacuum runs. Memory for the sessions' places may be
    /// refused.
    pub fn new(alloc: Global, indexed: [bool; COLUMNS]) -> Result<PlainHistory, AllocError>
        ensures { IfOk result (λ p. world_of p ≡ beginning indexed) }
    {
        let mut sessions = Vec::new(alloc);
        for _ in 0..256usize {
            sessions.push(None)?;
        }
        let mut waits = Vec::new(alloc);
        for _ in 0..256usize {
            waits.push(None)?;
        }
        let mut too_new = Vec::new(alloc);
        for _ in 0..256usize {
            too_new.push([false; 5])?;
        }
        Ok(PlainHistory {
            alloc,
            history: KeyedHistory::new(alloc),
            sessions,
            waits,
            indexed,
            too_new,
            vacuuming: false,
        })
    }

    /// Whether there is the index of this number: index 0, by the key, always, and index c + 1 where column c is indexed.
    pub fn has_index(&self, index: u8) -> bool
        ensures { result ≡ (world_of self.now).has_index index }
    {
        if index == 0 {
            return true;
        }
        match self.indexed.get(index as usize - 1) {
            Some(indexed) => *indexed,
            None => false,
        }
    }
    /// Whether the index is too new for the session: made while it was open by snapshot.
    pub(crate) fn is_too_new(&self, s: u8, index: u8) -> bool
        ensures { result ≡ (world_of self.now).too_new s index }
    {
        match self.too_new[s as usize].get(index as usize) {
            Some(marked) => *marked,
            None => false,
        }
    }
}
