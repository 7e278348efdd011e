//! What hinders a step that the history lets pass: of pages and ids it knows nothing.

ghost use Rattle.std.specs.Prelude.{◌≡◌, ◌↔◌, ℕ, IsTrue};
ghost use Rattle.one_answer.specs.OneAnswer.{IsOfTheEngine};
ghost use Rattle.side_by_side.specs.Hindrances.{AgreesWith};

use session_core::{Refusal, Reply};
use xid_circle::Xid;

/// What was so before a step.
#[derive(Clone, Copy)]
pub(crate) struct Before {
    /// The next id, and the oldest that is remembered.
    pub(crate) ids: (Xid, Xid),
    /// The step would need ids, and not as many may be given.
    pub(crate) needs_freeze: bool,
    /// The page that the step names is in use.
    pub(crate) has_page: bool,
    /// The index that the step would make is not there.
    pub(crate) lacks_index: bool,
}

/// What hinders a plan of a page in use, where this was replied. Whether the plan checks is left to the engine.
pub(crate) fn hindrance_of_plan(reply: &Reply) -> Option<Refusal> {
    match reply {
        Reply::Refused(Refusal::Stale) => Some(Refusal::Stale),
        _ => None,
    }
}

// Is the refusal for what the history does not know?
fn is_of_the_engine(refusal: Refusal) -> bool
    ensures { IsTrue result ↔ IsOfTheEngine refusal }
{
    matches!(
        refusal,
        Refusal::NeedsFreeze
            | Refusal::NoRoom
            | Refusal::NoMemory
            | Refusal::NoSuchPage
            | Refusal::Stale
    )
}

// Is it this refusal?
fn is_hindrance(hindrance: Option<Refusal>, refusal: Refusal) -> bool
    ensures { IsTrue result ↔ (hindrance ≡ Some refusal) }
{
    match hindrance {
        Some(why) => why == refusal,
        None => false,
    }
}

fn is_nothing(hindrance: Option<Refusal>) -> bool
    ensures { IsTrue result ↔ (hindrance ≡ None) }
{
    match hindrance {
        Some(_) => false,
        None => true,
    }
}

/// Whether the reply, which the history allows, is as what hinders the step demands. What hinders it comes last: where the history
/// itself has a refusal, that one is due.
pub(crate) fn agrees_with(hindrance: Option<Refusal>, reply: &Reply) -> bool
    ensures { IsTrue result ↔ AgreesWith hindrance reply.now }
{
    match reply {
        Reply::Refused(refusal) => {
            !is_of_the_engine(*refusal) || is_hindrance(hindrance, *refusal)
        }
        _ => is_nothing(hindrance),
    }
}

/// Whether a vacuum that has ended tells this as the oldest id that is remembered.
pub(crate) fn tells_oldest(reply: &Reply, first: Xid) -> bool
    ensures { IsTrue result
        ↔ ((told : ℕ) → reply.now ≡ Reply.Ended told → told ≡ first.0) }
{
    match reply {
        Reply::Ended(told) => *told == first.0,
        _ => true,
    }
}
