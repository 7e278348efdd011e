//! The steps of a vacuum.

ghost use Rattle.std.specs.Prelude.{◌≡◌, None, MatchOption};
ghost use Rattle.std.specs.Option.{option_map};
ghost use Rattle.status_cache.specs.Held.{held_from};
ghost use Rattle.session_steps.specs.Vacuums.{Forgets};
ghost use Rattle.calls.specs.declared.step.Step.TheVariants as step;
ghost use Rattle.vacuum_engine.specs.Exact.{EngineExact};

use crate::engine::Engine;
use calls::{Mode, Piece, Refusal, Reply};
use status_cache::StatusCache;
use xid_circle::Xid;

/// Drops each id before the cutoff from the cache, if there is one.
fn truncate(cache: &mut Option<StatusCache>, cutoff: Xid)
    ensures { cache.new ≡ option_map (held_from cutoff.0) cache.old }
{
    if let Some(cache) = cache {
        cache.truncate(cutoff);
    }
}

/// Puts the piece in a reply of another kind. It is a function of its own, since a new reply is a kilobyte, which is cleared first.
#[inline(never)]
fn put_first_piece(piece: Piece, reply: &mut Reply)
    ensures { reply.new ≡ Reply.Worked piece }
{
    *reply = Reply::Worked(piece);
}

/// Puts the piece in the place of the one before, if the reply has one.
#[inline(always)]
fn put_piece(piece: Piece, reply: &mut Reply)
    ensures { reply.new ≡ Reply.Worked piece }
{
    match reply {
        Reply::Worked(place) => *place = piece,
        _ => put_first_piece(piece, reply),
    }
}

/// Puts the end of a vacuum in the reply: it is a function of its own for the same reason.
#[inline(never)]
fn put_end(first: u32, reply: &mut Reply)
    ensures { reply.new ≡ Reply.Ended first }
{
    *reply = Reply::Ended(first);
}

impl Engine {
    /// Begins a vacuum of this mode. It fixes the horizon, the cutoff, the pages that it visits and how many entries the indexes have.
    /// Refusals: VacuumRunning. It takes no memory.
    pub(crate) fn begin_vacuum(&mut self, mode: Mode, reply: &mut Reply)
        ensures exact { EngineExact self.old.engine (step.VacuumBegin mode)
            reply.new self.new.engine }
        ensures waits { self.new.waits ≡ self.old.waits }
    {
        if let Some(vacuum) = &mut self.vacuum {
            vacuum.disturb(false);
            *reply = Reply::Refused(Refusal::VacuumRunning);
            return;
        }
        self.vacuum = Some(self.core.new_vacuum(mode));
        *reply = Reply::Done;
    }

    /// Does the next step of the vacuum, and answers what it did, or that it has ended. Refusals: NoVacuum. It takes no memory.
    pub(crate) fn step_vacuum(&mut self, reply: &mut Reply)
        ensures exact { EngineExact self.old.engine step.VacuumStep reply.new self.new.engine }
        ensures waits { self.new.waits ≡ self.old.waits }
    {
        let Some(vacuum) = &mut self.vacuum else {
            *reply = Reply::Refused(Refusal::NoVacuum);
            return;
        };
        let cutoff = vacuum.forgets_before();
        match self.core.vacuum_step(vacuum) {
            Some(piece) => put_piece(piece, reply),
            None => put_end(self.end_vacuum(cutoff), reply),
        }
    }

    /// Drops the vacuum, which has ended, and forgets the ids before the cutoff, if there is one. It answers the oldest that is
    /// remembered then.
    fn end_vacuum(&mut self, cutoff: Option<Xid>) -> u32
        ensures none { self.new.engine.vacuum ≡ None }
        ensures core { MatchOption cutoff (self.new.engine.core ≡ self.old.engine.core)
            (λ x. Forgets self.old.engine.core self.new.engine.core x.0) }
        ensures first { result ≡ self.new.engine.core.heap.statuses.first }
        ensures waits { self.new.waits ≡ self.old.waits }
    {
        self.vacuum = None;
        if let Some(cutoff) = cutoff {
            self.forget(cutoff);
        }
        let (_, first) = self.core.ids();
        first.0
    }

    /// Forgets the ids before the cutoff, where they can be forgotten, in the table and in the cache.
    fn forget(&mut self, cutoff: Xid)
        ensures core { Forgets self.old.engine.core self.new.engine.core cutoff.0 }
        ensures vacuum { self.new.engine.vacuum ≡ self.old.engine.vacuum }
        ensures waits { self.new.waits ≡ self.old.waits }
    {
        self.core.statuses().fact_window();
        self.core.forget(cutoff);
        self.core.statuses().fact_window();
        truncate(&mut self.cache, cutoff);
    }

    /// Drops the vacuum. Its work stays. Refusals: NoVacuum. It takes no memory.
    pub(crate) fn cancel_vacuum(&mut self, reply: &mut Reply)
        ensures exact { EngineExact self.old.engine step.VacuumCancel reply.new self.new.engine }
        ensures waits { self.new.waits ≡ self.old.waits }
    {
        if self.vacuum.is_none() {
            *reply = Reply::Refused(Refusal::NoVacuum);
            return;
        }
        self.vacuum = None;
        *reply = Reply::Done;
    }
}
