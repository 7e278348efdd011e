//! Workers that do lists of steps, each in a thread of its own.

use crate::replay::{Entries, replay};
use crate::rows::{SETTINGS, row};
use session_core::{RunFault, Step};
use shared_heap::{Book, Gate, Line, run_gated, run_threads};
use std::alloc::{AllocError, Global};
use std::sync::Wait;
use std::sync::atomic::{AtomicU64, Ordering};
use std::thread::Threads;

/// Adds a line to a list. It promises nothing: what a push does would be carried along to the end of each list.
pub(crate) fn add(lines: &mut Vec<Line>, wait: bool, step: Step) -> Result<(), AllocError> {
    lines.push(Line { wait, step })?;
    Ok(())
}

/// What the workers with these lists have done. Like the function below it promises nothing: what `run_threads` does would be carried
/// along by the proof of each test.
fn book_of<R: Threads + Wait + Sync>(
    rt: &R,
    alloc: Global,
    lists: Vec<Vec<Line>>,
) -> Result<Book, RunFault> {
    run_threads(rt, alloc, SETTINGS, lists)
}

/// The same, with each behind a gate.
pub(crate) fn gated_book_of<G: Gate + Sync, R: Threads + Wait + Sync>(
    rt: &R,
    alloc: Global,
    lists: Vec<Vec<Line>>,
    gate: &G,
) -> Result<Book, RunFault> {
    run_gated(rt, alloc, SETTINGS, lists, gate)
}

/// A session inserts a key of its own, and one that all insert, waiting; it reads its row, all keys and all rows. Every second one commits:
/// the first of these has the key then, and whoever waits for it fails.
fn list_of(alloc: Global, s: u8) -> Result<Vec<Line>, AllocError> {
    let own = 100 + u64::from(s);
    let mut lines = Vec::new(alloc);
    add(&mut lines, false, Step::Begin(s))?;
    add(&mut lines, false, Step::Insert(s, row(alloc, own, 1)))?;
    add(
        &mut lines,
        true,
        Step::Insert(s, row(alloc, 7, i64::from(s))),
    )?;
    add(&mut lines, false, Step::Get(s, own))?;
    add(&mut lines, false, Step::OpenKeys(s, 0, 200))?;
    add(&mut lines, false, Step::Next(s, 0))?;
    add(&mut lines, false, Step::Close(s))?;
    add(&mut lines, false, Step::OpenHeap(s))?;
    add(&mut lines, false, Step::Next(s, 0))?;
    add(&mut lines, false, Step::Next(s, 0))?;
    let last = if s % 2 == 0 {
        Step::Abort(s)
    } else {
        Step::Commit(s)
    };
    add(&mut lines, false, last)?;
    Ok(lines)
}

fn eight_lists(alloc: Global) -> Result<Vec<Vec<Line>>, AllocError> {
    let mut lists = Vec::new(alloc);
    for s in 0..8u8 {
        lists.push(list_of(alloc, s)?)?;
    }
    Ok(lists)
}

/// How the entries of eight workers were answered, if one thread that does the steps of their journal gets the same replies.
fn entries_of_eight<R: Threads + Wait + Sync>(
    rt: &R,
    alloc: Global,
) -> Result<Option<Entries>, RunFault> {
    match eight_lists(alloc) {
        Ok(lists) => {
            let book = book_of(rt, alloc, lists)?;
            replay(alloc, &book)
        }
        Err(_) => Err(RunFault::NoMemory),
    }
}

// Each line of each worker is done, whatever was answered Busy before.
#[test]
fn eight_workers_replay(rt: HostRuntime) -> Result<(), RunFault> {
    match entries_of_eight(&rt, rt.alloc())? {
        Some(entries) => assert_eq!(rt; entries.others, 88),
        None => assert!(rt; false),
    }
    Ok(())
}

/// Holds each of two workers in `pass` until the other is in its own.
#[derive(Drop)]
struct Both {
    inside: [AtomicU64; 2],
    gave_up: AtomicU64,
}

impl Gate for Both {
    fn pass(&self, worker: u8) {
        let (mine, other) = if worker == 0 { (0, 1) } else { (1, 0) };
        self.inside[mine].store(1, Ordering::SeqCst);
        for _ in 0..200_000_000u64 {
            if self.inside[other].load(Ordering::SeqCst) == 1 {
                return;
            }
        }
        self.gave_up.fetch_add(1, Ordering::SeqCst);
    }
}

/// Two workers, each of which begins a session of its own.
fn two_lists(alloc: Global) -> Result<Vec<Vec<Line>>, AllocError> {
    let mut lists = Vec::new(alloc);
    for s in 0..2u8 {
        let mut lines = Vec::new(alloc);
        add(&mut lines, false, Step::Begin(s))?;
        lists.push(lines)?;
    }
    Ok(lists)
}

/// How many calls the journal of two workers has, and which sessions are open in the end.
fn both_begin<R: Threads + Wait + Sync>(
    rt: &R,
    alloc: Global,
    gate: &Both,
) -> Result<(usize, u64), RunFault> {
    match two_lists(alloc) {
        Ok(lists) => {
            let book = gated_book_of(rt, alloc, lists, gate)?;
            Ok((book.journal().len(), book.engine().open_sessions()))
        }
        Err(_) => Err(RunFault::NoMemory),
    }
}

// Workers run at the same time. Sessions 0 and 1 are two bits.
#[test]
fn workers_pass_together(rt: HostRuntime) -> Result<(), RunFault> {
    let gate = Both {
        inside: [AtomicU64::new(0), AtomicU64::new(0)],
        gave_up: AtomicU64::new(0),
    };
    assert_eq!(rt; both_begin(&rt, rt.alloc(), &gate)?, (2, 3));
    assert_eq!(rt; gate.gave_up.load(Ordering::SeqCst), 0);
    Ok(())
}
