//! The room that a page has once it is pruned.

ghost use Rattle.std.specs.Prelude.{◌≡◌, length};
ghost use Rattle.page_sheet.specs.Slots.{room_of};
ghost use Rattle.prune.specs.Actions.{CanApply, applied};
ghost use Rattle.prune.specs.Room.{IsPlanOf};

use crate::action::PrunePlan;
use page_slots::Page;
use prune_actions::Action;
use tuple_header::MOST_SLOTS;

/// The largest size of a version that fits on a page, in bytes, once a plan of its pruning is applied: what [`Page::room`]
/// answers then. Nothing changes, so an update can know before it asks for memory whether pruning makes room for it. It takes
/// no memory.
pub fn room_after(page: &Page, plan: &PrunePlan) -> usize
    requires planned { IsPlanOf page.now.slots plan.now.actions.items }
    requires can_apply { CanApply (length page.now.slots) plan.now.actions.items }
    ensures { result ≡ room_of (applied plan.now.actions.items page.now).slots }
{
    let mut free_bytes = page.free_bytes();
    let mut has_unused = page.free_number() <= page.slots();
    for action in plan.actions.as_slice() {
        free_bytes += page.version_size(action.0);
        has_unused = has_unused || matches!(action.1, Action::Unuse);
    }
    if has_unused {
        free_bytes
    } else if page.slots() < MOST_SLOTS {
        free_bytes.saturating_sub(4)
    } else {
        0
    }
}
