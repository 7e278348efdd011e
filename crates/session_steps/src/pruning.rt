//! A page is cleaned, or a plan for one is applied, while sessions go on.

ghost use Rattle.std.specs.Prelude.{◌≡◌};
ghost use Rattle.snapshot.specs.Snap.{earliest};
ghost use Rattle.calls.specs.declared.step.Step.{Step};
ghost use Rattle.session_steps.specs.State.{horizon_of};
ghost use Rattle.session_steps.specs.Exact.{AnswersStep};
ghost use Rattle.session_steps.specs.Replies.{reply_to};

use crate::engine::SessionEngine;
use crate::outcome::Ack;
use calls::{PlanIn, Refusal};
use heap_write::{ApplyFault, PruneFault};
use sessions::horizon;
use xid_circle::Xid;

impl SessionEngine {
    /// The earliest id that an open session, or one that begins now, may still ask for. (What that takes is private to the crate.)
    pub fn horizon(&self) -> Xid
        ensures { result.0 ≡ horizon_of self.now }
    {
        horizon(self.heap.statuses().next(), self.sessions.places_in_use())
    }

    /// Takes from the page what nobody can see any more. Refusals: NoSuchPage. It takes no memory.
    pub(crate) fn prune(&mut self, page: u32) -> Result<Ack, Refusal>
        ensures { AnswersStep self.old (Step.Prune page) (reply_to result) self.new }
    {
        let horizon = self.horizon();
        match self.heap.prune(page, horizon) {
            Ok(()) => Ok(Ack::Done),
            Err(PruneFault::NoSuchPage) => Err(Refusal::NoSuchPage),
        }
    }

    /// Does on the page what the plan names, where it checks: made for this page as it is, and taking nothing that somebody may see.
    /// Refusals in order: NoSuchPage, Stale. It takes no memory.
    pub(crate) fn apply_plan(&mut self, page: u32, plan: &PlanIn) -> Result<Ack, Refusal>
        ensures { AnswersStep self.old (Step.ApplyPlan page plan.now) (reply_to result) self.new }
    {
        let horizon = self.horizon();
        let actions = plan.actions.as_slice();
        match self
            .heap
            .apply_if_checked(page, plan.change, actions, horizon)
        {
            Ok(()) => Ok(Ack::Done),
            Err(ApplyFault::NoSuchPage) => Err(Refusal::NoSuchPage),
            Err(ApplyFault::Stale) => Err(Refusal::Stale),
        }
    }
}
