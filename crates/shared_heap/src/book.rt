//! An engine with the journal of its calls.

ghost use Rattle.std.specs.Prelude.{◌≡◌, [], IfOk, IfErr, OnOk, MatchResult};
ghost use Rattle.calls.specs.Words.{AreSettings};
ghost use Rattle.table_scans.specs.Tickets.{ticket_rows};
ghost use Rattle.session_steps.specs.Tickets.{TakesTicket, RefusesTicket, AreViewed};
ghost use Rattle.session_core.specs.Views.{AreViews, RefusesViews};
ghost use Rattle.shared_heap.specs.Books.{IsBookOf, HasRun, Appends, Calls, FirstThreadsFault};

use crate::copies::{copy_reply, spare_for};
use page_views::PageViews;
use session_core::{Engine, Refusal, Reply, RunFault, Settings, SettingsFault, Step};
use std::alloc::{AllocError, Global};
use std::marker::Model;
use table_scans::Ticket;

/// An engine with the journal of the calls that it answered, oldest first: a run that leads from a new engine to this one.
#[derive(Drop)]
pub struct Book {
    alloc: Global,
    engine: Engine,
    journal: Vec<(Step, Reply)>,
}

impl Model for Book {
    ghost use Rattle.shared_heap.specs.Books.{BookView, IsBook};

    ghost Value = { BookView };

    ghost view = { λ b. record { engine = b.engine; journal = b.journal.items } };

    ghost invariant = { λ b. IsBook (record { engine = b.engine; journal = b.journal.items }) };
}

impl Book {
    /// A new engine, with an empty journal.
    pub fn new(alloc: Global, settings: Settings) -> Result<Book, RunFault>
        ensures made { IfOk result (λ book. IsBookOf settings book) }
        ensures empty { IfOk result (λ book. book.journal ≡ []) }
        ensures fault { IfErr result (λ fault. FirstThreadsFault settings fault) }
        ensures valid { OnOk result (AreSettings settings) }
    {
        match Engine::new(alloc, settings) {
            Ok(engine) => Ok(Book {
                alloc,
                engine,
                journal: Vec::new(alloc),
            }),
            Err(SettingsFault::NoMemory) => Err(RunFault::NoMemory),
            Err(fault) => Err(RunFault::Settings(fault)),
        }
    }

    /// The engine.
    pub fn engine(&self) -> &Engine
        ensures { result.now ≡ self.now.engine }
    {
        &self.engine
    }

    /// The calls with what they were answered, oldest first: a run of the history from its beginning; the engine agrees with its
    /// end. (It is private to the book, and so is the engine, that every step is noted.)
    pub fn journal(&self) -> &[(Step, Reply)]
        ensures value { result.now ≡ self.now.journal }
        ensures run { HasRun self.now }
    {
        self.journal.as_slice()
    }

    /// The pages from `from` up to, and without, `to` as they are now, for plans of their pruning that are made outside the latch. It is no
    /// step, and isn't noted. Refusals: NoSuchPage, where `from` is over `to`, or `to` over the number of pages; NoMemory. (The engine is
    /// private, here and below.)
    pub fn page_views(&mut self, from: u32, to: u32) -> Result<PageViews, Refusal>
        ensures same { self.new ≡ self.old }
        ensures views { MatchResult result (AreViews self.old.engine.engine.core from to)
            (RefusesViews self.old.engine.engine.core from to) }
    {
        self.engine.page_views(self.alloc, from, to)
    }

    /// The page of this number with what a statement of the session sees of it, for [`table_scans::resolve`] to give the rows
    /// outside the latch. It is no step, and isn't noted. Refusals in order: NoSuchSession, NotOpen, Failed, NoSuchPage,
    /// NoMemory.
    pub fn take_page(&mut self, session: u8, page: u32) -> Result<Ticket, Refusal>
        ensures same { self.new ≡ self.old }
        ensures taken { MatchResult result (TakesTicket self.old.engine.engine.core session page)
            (RefusesTicket self.old.engine.engine.core session page) }
        ensures view { IfOk result
            (λ ticket. AreViewed self.old.engine.engine.core session (ticket_rows ticket)) }
    {
        self.engine.take_page(session, page)
    }

    /// Calls the engine, and notes the step with its reply. The room for both is made before: where it is refused, nothing is done.
    pub fn try_call(&mut self, step: Step) -> Result<Reply, AllocError>
        ensures { MatchResult result (λ reply. Appends self.old step reply self.new)
            (λ _. self.new ≡ self.old) }
    {
        self.journal.reserve(1)?;
        let copy = step.copy(self.alloc)?;
        let spare = spare_for(self.alloc, &self.engine, &step)?;
        let reply = self.engine.step(step);
        let answer = copy_reply(&reply, spare);
        self.journal.push_reserved((copy, reply));
        Ok(answer)
    }

    /// Calls the engine, and notes the step with its reply. Where the room for both is refused, the answer is NoMemory, and nothing is
    /// noted.
    pub fn call(&mut self, step: Step) -> Reply
        ensures { Calls self.old step result self.new }
    {
        match self.try_call(step) {
            Ok(reply) => reply,
            Err(_) => Reply::Refused(Refusal::NoMemory),
        }
    }
}
