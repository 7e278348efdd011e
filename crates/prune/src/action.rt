//! A plan.

ghost use Rattle.std.specs.Prelude.{◌≡◌, ◌↔◌, [], IsSome, IsTrue};
ghost use Rattle.prune.specs.Actions.{action_of};

use arrayvec::ArrayVec;
use prune_actions::Action;
use tuple_header::MOST_SLOT_NUMBERS;

/// A plan's actions.
pub(crate) type Actions = ArrayVec<(u16, Action), MOST_SLOT_NUMBERS>;

/// A plan of pruning a page: made without changing the page, and applied later if it still checks.
#[derive(Debug, Drop)]
pub struct PrunePlan {
    /// The change number of the page that it was made for.
    pub change: u64,
    /// The actions, in order of their slots. A page has at most 291 slots, so a plan takes no memory.
    pub actions: ArrayVec<(u16, Action), MOST_SLOT_NUMBERS>,
}

impl PrunePlan {
    /// A plan of no page, that names nothing.
    #[inline(always)]
    pub fn new() -> Self
        ensures change { result.change ≡ 0 }
        ensures actions { result.actions.items ≡ [] }
    {
        PrunePlan {
            change: 0,
            actions: ArrayVec::new(),
        }
    }

    /// True where the plan has an action for the slot of this number.
    pub fn names(&self, slot: u16) -> bool
        ensures { IsTrue result ↔ IsSome (action_of self.now.actions.items slot) }
    {
        for action in self.actions.as_slice() {
            if action.0 == slot {
                return true;
            }
        }
        false
    }
}
