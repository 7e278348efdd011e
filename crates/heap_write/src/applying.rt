//! A plan that somebody made is applied to a page, where it still checks.

ghost use Rattle.std.specs.Prelude.{◌≡◌, OnOk, OnErr, IfErr};
ghost use Rattle.heap_write.specs.Writes.{Applies};
ghost use Rattle.heap_write.specs.Refusals.{Unapplied};

use crate::heap::HeapState;
use prune::{Action, check_actions};
use thiserror::Error;
use xid_circle::Xid;

/// Why a plan was not applied.
#[derive(Clone, Copy, Debug, PartialEq, Eq, Error)]
pub enum ApplyFault {
    /// There are no more pages in use than its number.
    #[error("there is no such page")]
    NoSuchPage,
    /// The plan does not check: the page was changed since, or somebody may see what would go.
    #[error("the plan does not check")]
    Stale,
}

impl HeapState {
    /// Does these actions on the page of this number, counted from 0, and nothing else, where they check at the horizon. They are a
    /// plan that was made for a page of this change number. Anyone may have made it, at any time. It takes no memory, and a fault
    /// leaves all as it was.
    pub fn apply_if_checked(
        &mut self,
        number: u32,
        change: u64,
        actions: &[(u16, Action)],
        horizon: Xid,
    ) -> Result<(), ApplyFault>
        ensures ok { OnOk result
            (Applies self.old self.new number horizon.0 change actions.now) }
        ensures fault { IfErr result
            (λ fault. Unapplied self.old number horizon.0 change actions.now fault) }
        ensures err { OnErr result (self.new ≡ self.old) }
    {
        let page = match self.pages.page(number) {
            Some(page) => page,
            None => return Err(ApplyFault::NoSuchPage),
        };
        if !check_actions(page, change, actions, &self.statuses, horizon) {
            return Err(ApplyFault::Stale);
        }
        self.do_actions(number, actions);
        Ok(())
    }
}
