//! Rings of waits: whoever would close one is told Deadlock, and the others go on once it has aborted.

use crate::lists::{add, gated_book_of};
use crate::replay::{Entries, replay};
use crate::rows::row;
use session_core::{RunFault, Step};
use shared_heap::{Gate, Line};
use std::alloc::{AllocError, Global};
use std::sync::Wait;
use std::sync::atomic::{AtomicU64, Ordering};
use std::thread::Threads;

/// Holds each worker, after its second entry, until all have come so far.
#[derive(Drop)]
struct SecondEntry {
    workers: u64,
    arrived: AtomicU64,
    passes: [AtomicU64; 3],
}

impl SecondEntry {
    fn new(workers: u64) -> SecondEntry {
        SecondEntry {
            workers,
            arrived: AtomicU64::new(0),
            passes: [AtomicU64::new(0), AtomicU64::new(0), AtomicU64::new(0)],
        }
    }
}

impl Gate for SecondEntry {
    fn pass(&self, worker: u8) {
        let Some(passes) = self.passes.get(usize::from(worker)) else {
            return;
        };
        if passes.fetch_add(1, Ordering::SeqCst) != 1 {
            return;
        }
        self.arrived.fetch_add(1, Ordering::SeqCst);
        for _ in 0..200_000_000u64 {
            if self.arrived.load(Ordering::SeqCst) >= self.workers {
                return;
            }
        }
    }
}

/// A session inserts the key of its number, and then the next session's, waiting; and aborts.
fn list_of(alloc: Global, s: u8, sessions: u8) -> Result<Vec<Line>, AllocError> {
    let after = s.saturating_add(1);
    let next = if after < sessions { after } else { 0 };
    let (own, other) = (u64::from(s), u64::from(next));
    let mut lines = Vec::new(alloc);
    add(&mut lines, false, Step::Begin(s))?;
    add(&mut lines, false, Step::Insert(s, row(alloc, own, 1)))?;
    add(&mut lines, true, Step::Insert(s, row(alloc, other, 1)))?;
    add(&mut lines, false, Step::Abort(s))?;
    Ok(lines)
}

fn lists_of(alloc: Global, workers: u8) -> Result<Vec<Vec<Line>>, AllocError> {
    let mut lists = Vec::new(alloc);
    for s in 0..workers {
        lists.push(list_of(alloc, s, workers)?)?;
    }
    Ok(lists)
}

/// How the entries of so many workers were answered that would wait in a ring.
fn entries_of_ring<R: Threads + Wait + Sync>(
    rt: &R,
    alloc: Global,
    workers: u8,
) -> Result<Option<Entries>, RunFault> {
    let gate = SecondEntry::new(u64::from(workers));
    match lists_of(alloc, workers) {
        Ok(lists) => {
            let book = gated_book_of(rt, alloc, lists, &gate)?;
            replay(alloc, &book)
        }
        Err(_) => Err(RunFault::NoMemory),
    }
}

// One of the workers is told Deadlock, and no more; each does its four lines.
#[test]
fn one_worker_closes_the_ring(rt: HostRuntime) -> Result<(), RunFault> {
    for workers in [2u8, 3] {
        match entries_of_ring(&rt, rt.alloc(), workers)? {
            Some(entries) => {
                assert_eq!(rt; entries.deadlocks, 1);
                assert_eq!(rt; entries.others.saturating_add(1), usize::from(workers) * 4);
            }
            None => assert!(rt; false),
        }
    }
    Ok(())
}
