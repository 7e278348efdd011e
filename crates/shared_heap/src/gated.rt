//! Workers that do their lists on one book, each in a thread of its own.

ghost use Rattle.std.specs.Prelude.{◌≡◌, IfOk, IfErr};
ghost use Rattle.shared_heap.specs.Books.{IsBookOf, FirstThreadsFault};
ghost use Rattle.shared_heap.specs.Merge.{IsMerge, lines_in};

use crate::book::Book;
use crate::line::WorkerLine;
use crate::request::Request;
use crate::work::{Outcome, Work};
use session_core::{RunFault, Settings};
use std::alloc::Global;
use std::marker::Brand;
use std::sync::{Condvar, Mutex, Wait};
use std::thread;
use std::thread::Threads;

/// Where workers pass: a test may hold them there.
pub trait Gate {
    /// A worker passes, after each of its entries and outside the latch.
    fn pass(&self, worker: u8);
}

/// A gate that does nothing.
struct Open;

impl Gate for Open {
    fn pass(&self, _worker: u8) {}
}

/// Work that threads share.
struct SharedWork<J: Request> {
    latch: Mutex<Work<J>>,
    changed: Condvar,
}

/// The next turn of a worker.
#[derive(Clone, Copy)]
enum Turn {
    /// Its next line.
    Goes,
    /// The line that was answered Busy once more, when there were more moves than so many.
    Waits(u64),
    /// Nothing more.
    Ends,
}

/// Does the worker's next line, if it is to do one, and says what it does after that.
fn do_next<J: Request, R: Wait>(
    rt: &R,
    shared: &SharedWork<J>,
    worker: u8,
    seen: Option<u64>,
) -> Turn {
    let mut work = shared.latch.lock(rt);
    if let Some(seen) = seen {
        work = shared
            .changed
            .wait_while(rt, work, |w| w.moves == seen && !w.stops);
    }
    if work.stops {
        return Turn::Ends;
    }
    match work.do_line(usize::from(worker)) {
        Ok(Outcome::NothingLeft) => Turn::Ends,
        Ok(Outcome::Waits) => Turn::Waits(work.moves),
        Ok(Outcome::Done) => {
            work.moves = work.moves.wrapping_add(1);
            drop(work);
            shared.changed.notify_all();
            Turn::Goes
        }
        Err(_) => {
            work.refused = true;
            work.stops = true;
            drop(work);
            shared.changed.notify_all();
            Turn::Ends
        }
    }
}

/// Does the worker's lines, one after another.
fn do_list<J: Request, R: Wait, G: Gate>(rt: &R, shared: &SharedWork<J>, gate: &G, worker: u8) {
    let mut seen = None;
    for _ in rt.forever() {
        match do_next(rt, shared, worker, seen) {
            Turn::Goes => seen = None,
            Turn::Waits(moves) => seen = Some(moves),
            Turn::Ends => return,
        }
        gate.pass(worker);
    }
}

/// Has the workers begin no more lines. The lines that they leave are done when all have ended.
fn stop<J: Request, R: Wait>(rt: &R, shared: &SharedWork<J>) {
    let mut work = shared.latch.lock(rt);
    work.stops = true;
    drop(work);
    shared.changed.notify_all();
}

/// Does the lists, one worker each, on a book of a new engine of these settings. The book's journal is a merge of the lists, for some
/// choice of a worker for each entry. Each entry is the step of that worker's next line. A plain line is done by its entry, and a waiting
/// one where its entry is not answered Busy. All lines are done. Eight workers have a thread of their own. The lists of others, and what
/// is left where a thread can't be made, are done here. It never returns where each line that is left is answered Busy. (The call brands
/// the work: the settings and the lists are named by its type.)
pub fn run_gated<R: Threads + Wait + Sync, G: Gate + Sync>(
    rt: &R,
    alloc: Global,
    settings: Settings,
    lists: Vec<Vec<WorkerLine>>,
    gate: &G,
) -> Result<Book, RunFault>
    ensures made { IfOk result (λ book. IsBookOf settings book) }
    ensures merge { IfOk result (λ book. IsMerge (lines_in lists.items) book.journal) }
    ensures fault { IfErr result (λ fault. FirstThreadsFault settings fault) }
{
    do_all::<Brand, R, G>(rt, alloc, settings, lists, gate)
}

/// Does what [`run_gated`] does, for the settings and lists that the type of the work names.
fn do_all<J: Request + Send + Sync, R: Threads + Wait + Sync, G: Gate + Sync>(
    rt: &R,
    alloc: Global,
    settings: Settings,
    lists: Vec<Vec<WorkerLine>>,
    gate: &G,
) -> Result<Book, RunFault>
    requires settings { settings ≡ J.settings }
    requires lists { lines_in lists.items ≡ J.lists }
    ensures made { IfOk result (λ book. IsBookOf settings book) }
    ensures merge { IfOk result (λ book. IsMerge (lines_in lists.items) book.journal) }
    ensures fault { IfErr result (λ fault. FirstThreadsFault settings fault) }
{
    let count = lists.len();
    let work: Work<J> = match Work::new(alloc, settings, lists) {
        Ok(work) => work,
        Err(fault) => return Err(fault),
    };
    let mut work = in_threads(rt, work, count, gate);
    if work.refused || work.finish(rt).is_err() {
        return Err(RunFault::NoMemory);
    }
    Ok(work.into_book())
}

/// Has the first eight workers do their lists, each in a thread of its own, and waits for all.
fn in_threads<J: Request + Send + Sync, R: Threads + Wait + Sync, G: Gate + Sync>(
    rt: &R,
    work: Work<J>,
    count: usize,
    gate: &G,
) -> Work<J> {
    let shared = SharedWork {
        latch: Mutex::new(work),
        changed: Condvar::new(),
    };
    spread(rt, &shared, count, gate);
    let SharedWork { latch, changed: _ } = shared;
    latch.into_inner()
}

/// Begins the threads of the first eight workers. Where one can't be made, the others leave what they have not begun: one of them
/// could wait for a line that nobody does.
fn spread<'x, J: Request + Send + Sync, R: Threads + Wait + Sync, G: Gate + Sync>(
    rt: &'x R,
    shared: &'x SharedWork<J>,
    count: usize,
    gate: &'x G,
) {
    thread::scope(thread::scope_env(), rt, |scope| {
        for worker in 0..8u8 {
            if usize::from(worker) < count {
                let spawned = scope.spawn(move || do_list(rt, shared, gate, worker));
                if spawned.is_err() {
                    stop(rt, shared);
                }
            }
        }
    });
}

/// Does the lists as [`run_gated`] does, without a gate. (The open gate is private here.)
pub fn run_threads<R: Threads + Wait + Sync>(
    rt: &R,
    alloc: Global,
    settings: Settings,
    lists: Vec<Vec<WorkerLine>>,
) -> Result<Book, RunFault>
    ensures made { IfOk result (λ book. IsBookOf settings book) }
    ensures merge { IfOk result (λ book. IsMerge (lines_in lists.items) book.journal) }
    ensures fault { IfErr result (λ fault. FirstThreadsFault settings fault) }
{
    run_gated(rt, alloc, settings, lists, &Open)
}
