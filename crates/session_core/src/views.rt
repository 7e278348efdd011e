//! Pages as they are, for plans that are made while steps go on, and for rows that are read then.

ghost use Rattle.std.specs.Prelude.{◌≡◌, ◌≤◌, ◌-◌, drop, take, length, IfOk, MatchResult};
ghost use Rattle.page_views.specs.View.{pages_behind, numbered};
ghost use Rattle.table_scans.specs.Tickets.{ticket_rows};
ghost use Rattle.session_steps.specs.Tickets.{TakesTicket, RefusesTicket, AreViewed};
ghost use Rattle.session_core.specs.Views.{AreViews, RefusesViews};

use crate::engine::Engine;
use calls::Refusal;
use page_slots::Page;
use page_views::PageViews;
use session_steps::SessionEngine;
use std::alloc::{AllocError, Global};
use std::sync::Arc;
use table_scans::Ticket;

/// The pages from one number up to another, each beside its number.
fn share_pages(
    core: &mut SessionEngine,
    alloc: Global,
    from: u32,
    to: u32,
) -> Result<Vec<(u32, Arc<Box<Page>>)>, AllocError>
    requires order { from ≤ to }
    requires within { to ≤ length core.old.heap.pages.pages }
    ensures same { core.new ≡ core.old }
    ensures pages { IfOk result (λ pages. pages_behind pages.items
        ≡ numbered from (take (to - from) (drop from core.old.heap.pages.pages))) }
{
    let mut pages = Vec::new(alloc);
    for number in from..to {
        let page = core.share(number)?;
        pages.push((number, page))?;
    }
    Ok(pages)
}

impl Engine {
    /// The pages from `from` up to, and without, `to` as they are now, the statuses of the ids, and the horizon: what plans of
    /// their pruning need. It is no step, and changes nothing; whatever is written later, the pages stay as they were. Refusals:
    /// NoSuchPage, where `from` is over `to`, or `to` over the number of pages; NoMemory.
    pub fn page_views(&mut self, alloc: Global, from: u32, to: u32) -> Result<PageViews, Refusal>
        ensures same { self.new ≡ self.old }
        ensures views { MatchResult result (AreViews self.old.engine.core from to)
            (RefusesViews self.old.engine.core from to) }
    {
        if from > to || to > self.pages() {
            return Err(Refusal::NoSuchPage);
        }
        let Ok(pages) = share_pages(&mut self.core, alloc, from, to) else {
            return Err(Refusal::NoMemory);
        };
        let Ok(statuses) = self.core.statuses().copy(alloc) else {
            return Err(Refusal::NoMemory);
        };
        Ok(PageViews::of(pages, statuses, self.core.horizon()))
    }

    /// The page of this number with what a statement of the session sees of it, for [`table_scans::resolve`] to give the rows at
    /// any time. It is no step, and changes nothing; whatever is written later, the ticket stays as it was. (The
    /// engine of the sessions is private. No step comes, so no wait ends and no vacuum is disturbed.) Refusals in order: NoSuchSession,
    /// NotOpen, Failed, NoSuchPage, NoMemory.
    pub fn take_page(&mut self, session: u8, page: u32) -> Result<Ticket, Refusal>
        ensures same { self.new ≡ self.old }
        ensures taken { MatchResult result (TakesTicket self.old.engine.core session page)
            (RefusesTicket self.old.engine.core session page) }
        ensures view { IfOk result
            (λ ticket. AreViewed self.old.engine.core session (ticket_rows ticket)) }
    {
        self.core.take_page(session, page)
    }
}
