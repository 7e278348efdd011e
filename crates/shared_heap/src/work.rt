//! The data under the latch while workers do their lists.

ghost use Rattle.std.specs.Prelude.{◌≡◌, [], IfOk, IfErr, OnOk, OnSome, MatchOption, IsTrue, replicate, length, slice_index, ◌+◌, ◌^◌, ◌<◌, ◌&&◌, not};
ghost use Rattle.shared_heap.specs.Books.{FirstThreadsFault, IsBookOf};
ghost use Rattle.shared_heap.specs.Merge.{IsMerge, lines_in};
ghost use Rattle.shared_heap.specs.Work.{AllDone, left_of, BeginsWith};
ghost use Rattle.calls.specs.Words.{AreSettings};
ghost use Rattle.shared_heap.specs.Replies.{is_busy_reply};

use crate::book::Book;
use crate::copies::is_busy;
use crate::line::WorkerLine;
use crate::request::Request;
use session_core::{Reply, RunFault, Settings};
use std::alloc::{AllocError, Global};
use std::marker::{Model, PhantomData};
use std::sync::{Condvar, Mutex, Wait};

/// The outcome of a worker's next line.
#[derive(Clone, Copy, Debug, PartialEq, Eq)]
pub(crate) enum Outcome {
    /// There was none.
    NothingLeft,
    /// It is done.
    Done,
    /// It was answered Busy, and is to be done again.
    Waits,
}

/// A book, with the settings that its engine was made with, the workers' lists, the worker of each entry, and how many lines of each
/// list are done.
#[derive(Drop)]
pub(crate) struct Work<J: Request> {
    alloc: Global,
    settings: Settings,
    lists: Vec<Vec<WorkerLine>>,
    book: Book,
    workers: Vec<usize>,
    done: Vec<usize>,
    /// How many lines were done, modulo 2^64.
    pub(crate) moves: u64,
    /// Memory was refused.
    pub(crate) refused: bool,
    /// Workers begin no more lines: memory was refused, or one of them has no thread.
    pub(crate) stops: bool,
    of: PhantomData<J>,
}

impl<J: Request> Model for Work<J> {
    ghost use Rattle.shared_heap.specs.Work.{WorkView, IsWorkOf};
    ghost use Rattle.shared_heap.specs.Merge.{lines_in};

    ghost Value = { WorkView };

    ghost view = { λ w. record {
      settings = w.settings;
      lists = lines_in w.lists.items;
      book = w.book;
      workers = w.workers.items;
      done = w.done.items;
    } };

    ghost invariant = { λ w. IsWorkOf J.settings J.lists (record {
      settings = w.settings;
      lists = lines_in w.lists.items;
      book = w.book;
      workers = w.workers.items;
      done = w.done.items;
    }) };
}

impl<J: Request> Work<J> {
    /// A new book, and no line is done.
    pub(crate) fn new(
        alloc: Global,
        settings: Settings,
        lists: Vec<Vec<WorkerLine>>,
    ) -> Result<Work<J>, RunFault>
        requires settings { settings ≡ J.settings }
        requires lists { lines_in lists.items ≡ J.lists }
        ensures fault { IfErr result (λ fault. FirstThreadsFault settings fault) }
        ensures valid { OnOk result (AreSettings settings) }
    {
        let book = match Book::new(alloc, settings) {
            Ok(book) => book,
            Err(fault) => return Err(fault),
        };
        let Ok(done) = zeros(alloc, lists.len()) else {
            return Err(RunFault::NoMemory);
        };
        Ok(Work {
            alloc,
            settings,
            lists,
            book,
            workers: Vec::new(alloc),
            done,
            moves: 0,
            refused: false,
            stops: false,
            of: PhantomData,
        })
    }

    /// The next line of the worker, if one is left.
    fn next_line(&self, worker: usize) -> Option<&WorkerLine>
        ensures counted { OnSome result (worker < length self.now.done) }
        ensures below { OnSome result (slice_index self.now.done worker + 1 < 2 ^ 64) }
        ensures line { MatchOption result (left_of self.now.lists self.now.done worker ≡ [])
            (λ line. BeginsWith (left_of self.now.lists self.now.done worker) line.now) }
    {
        if worker >= self.lists.len() {
            return None;
        }
        let done = self.done[worker];
        self.lists[worker].get(done)
    }

    /// An equal line to the next of the worker, if one is left.
    fn copy_line(&self, worker: usize) -> Result<Option<WorkerLine>, AllocError>
        ensures counted { IfOk result (λ line. OnSome line (worker < length self.now.done)) }
        ensures below { IfOk result
            (λ line. OnSome line (slice_index self.now.done worker + 1 < 2 ^ 64)) }
        ensures line { IfOk result
            (λ line. MatchOption line (left_of self.now.lists self.now.done worker ≡ [])
            (λ line. BeginsWith (left_of self.now.lists self.now.done worker) line)) }
    {
        match self.next_line(worker) {
            Some(line) => Ok(Some(line.copy(self.alloc)?)),
            None => Ok(None),
        }
    }

    /// Does the next line of the worker.
    pub(crate) fn do_line(&mut self, worker: usize) -> Result<Outcome, AllocError> {
        let Some(line) = self.copy_line(worker)? else {
            return Ok(Outcome::NothingLeft);
        };
        self.workers.reserve(1)?;
        let WorkerLine { wait, step } = line;
        let reply = self.book.try_call(step)?;
        self.workers.push_reserved(worker);
        if is_done_by(wait, &reply) {
            self.done[worker] += 1;
            Ok(Outcome::Done)
        } else {
            Ok(Outcome::Waits)
        }
    }

    /// True only where no line is left.
    pub(crate) fn is_done(&self) -> bool
        ensures { IsTrue result → AllDone self.now }
    {
        for worker in 0..self.lists.len() {
            if self.next_line(worker).is_some() {
                return false;
            }
        }
        true
    }

    /// Does each worker's next line once. True where any was done.
    fn do_round(&mut self) -> Result<bool, AllocError> {
        let count = self.lists.len();
        let mut moved = false;
        for worker in 0..count {
            if self.do_line(worker)? == Outcome::Done {
                moved = true;
            }
        }
        Ok(moved)
    }

    /// Does all lines that are left. Where each that is left is answered Busy, it waits for good.
    pub(crate) fn finish<R: Wait>(&mut self, rt: &R) -> Result<(), AllocError>
        ensures done { OnOk result (AllDone self.new) }
    {
        for _ in rt.forever() {
            if self.is_done() {
                return Ok(());
            }
            if !self.do_round()? {
                wait_for_good(rt);
            }
        }
        unreachable!()
    }

    /// The book, once all lines are done.
    pub(crate) fn into_book(self) -> Book
        requires { AllDone self }
        ensures made { IsBookOf J.settings result }
        ensures merge { IsMerge J.lists result.journal }
    {
        self.book
    }
}

/// True where an entry with this reply does a line.
fn is_done_by(wait: bool, reply: &Reply) -> bool
    ensures { result ≡ not (wait && is_busy_reply reply.now) }
{
    !(wait && is_busy(reply))
}

/// Nobody ends this wait.
fn wait_for_good<R: Wait>(rt: &R) {
    let nothing = Mutex::new(());
    let never = Condvar::new();
    let mut guard = nothing.lock(rt);
    for _ in rt.forever() {
        guard = never.wait(rt, guard);
    }
}

/// So many zeros.
fn zeros(alloc: Global, count: usize) -> Result<Vec<usize>, AllocError>
    ensures { IfOk result (λ v. v.items ≡ replicate count 0) }
{
    vec![in alloc; 0; count]
}
