//! A book that threads share.

ghost use Rattle.std.specs.Prelude.{IfErr};
ghost use Rattle.shared_heap.specs.Books.{FirstThreadsFault};

use crate::book::Book;
use crate::copies::is_busy;
use page_views::PageViews;
use session_core::{Refusal, Reply, RunFault, Settings, Step};
use std::alloc::Global;
use std::sync::{Condvar, Mutex, Wait};
use table_scans::Ticket;

/// A book under a latch.
#[derive(Drop)]
pub struct Shared {
    alloc: Global,
    latch: Mutex<Book>,
    changed: Condvar,
}

impl Shared {
    /// A new engine, with an empty journal.
    pub fn new(alloc: Global, settings: Settings) -> Result<Shared, RunFault>
        ensures { IfErr result (λ fault. FirstThreadsFault settings fault) }
    {
        let book = match Book::new(alloc, settings) {
            Ok(book) => book,
            Err(fault) => return Err(fault),
        };
        Ok(Shared {
            alloc,
            latch: Mutex::new(book),
            changed: Condvar::new(),
        })
    }

    /// Calls the book.
    pub fn call<R: Wait>(&self, rt: &R, step: Step) -> Reply {
        let mut book = self.latch.lock(rt);
        let reply = book.call(step);
        drop(book);
        if !is_busy(&reply) {
            self.changed.notify_all();
        }
        reply
    }

    /// Calls the book, and again for as long as it answers Busy: each time once another call was answered otherwise. Each call is
    /// noted.
    pub fn call_waiting<R: Wait>(&self, rt: &R, step: Step) -> Reply {
        let mut book = self.latch.lock(rt);
        for _ in rt.forever() {
            let Ok(copy) = step.copy(self.alloc) else {
                return Reply::Refused(Refusal::NoMemory);
            };
            let reply = book.call(copy);
            if !is_busy(&reply) {
                drop(book);
                self.changed.notify_all();
                return reply;
            }
            book = self.changed.wait(rt, book);
        }
        unreachable!()
    }

    /// Takes the pages from `from` up to, and without, `to` as [`Book::page_views`] does.
    pub fn page_views<R: Wait>(&self, rt: &R, from: u32, to: u32) -> Result<PageViews, Refusal> {
        let mut book = self.latch.lock(rt);
        book.page_views(from, to)
    }

    /// Takes the page of this number for the session as [`Book::take_page`] does. The ticket is resolved outside the latch.
    pub fn take_page<R: Wait>(&self, rt: &R, session: u8, page: u32) -> Result<Ticket, Refusal> {
        let mut book = self.latch.lock(rt);
        book.take_page(session, page)
    }

    /// The book, once no thread shares it. (The latch is private to this type.)
    pub fn into_book(self) -> Book {
        self.latch.into_inner()
    }
}
