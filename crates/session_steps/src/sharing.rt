//! Pages as they are, for who plans their pruning or reads their rows while steps go on.

ghost use Rattle.std.specs.Prelude.{◌≡◌, ◌<◌, Some, length, slice_get, IfOk, MatchResult};
ghost use Rattle.std.specs.Arc.{arc_value};
ghost use Rattle.table_scans.specs.Tickets.{ticket_rows};
ghost use Rattle.session_steps.specs.Tickets.{TakesTicket, RefusesTicket, AreViewed};

use crate::engine::SessionEngine;
use calls::Refusal;
use commit_status::StatusTable;
use page_slots::Page;
use std::alloc::AllocError;
use std::sync::Arc;
use table_scans::Ticket;

impl SessionEngine {
    /// The page of this number as it is now, for readers to keep: as [`heap_write::HeapState::share`], since the heap is private and the
    /// memory is the engine's.
    pub fn share(&mut self, number: u32) -> Result<Arc<Box<Page>>, AllocError>
        requires { number < length self.old.heap.pages.pages }
        ensures same { self.new ≡ self.old }
        ensures shared { IfOk result
            (λ page. slice_get self.old.heap.pages.pages number ≡ Some (arc_value page).value) }
    {
        self.heap.share(number, self.alloc)
    }

    /// The statuses of all ids that are remembered. It is a call of its own for who asks for nothing else of the table.
    pub fn statuses(&self) -> &StatusTable
        ensures { result.now ≡ self.now.heap.statuses }
    {
        self.heap.statuses()
    }

    /// The page of this number with what a statement of the session sees of it, to be read whatever is written later. It is no step, and
    /// changes nothing. Refusals in order: NoSuchSession, NotOpen, Failed, NoSuchPage, NoMemory.
    pub fn take_page(&mut self, s: u8, number: u32) -> Result<Ticket, Refusal>
        ensures same { self.new ≡ self.old }
        ensures taken { MatchResult result (TakesTicket self.old s number)
            (RefusesTicket self.old s number) }
        ensures view { IfOk result (λ ticket. AreViewed self.old s (ticket_rows ticket)) }
    {
        self.ready(s)?;
        if number >= self.heap.page_count() {
            return Err(Refusal::NoSuchPage);
        }
        let Ok(page) = self.share(number) else {
            return Err(Refusal::NoMemory);
        };
        let session = self.ready(s)?;
        let mut place = None;
        let reader = self.reader(session, &mut place);
        Ok(Ticket::of(self.alloc, page, &reader))
    }
}
