//! Laws of an engine that agrees with a world: what is found through an index, and what the horizon is. The functions do
//! nothing: their contracts are the laws.

ghost use Rattle.session_steps.specs.Laws.{ViewsByIndex, HorizonIsEarliest};
ghost use Rattle.session_steps.specs.Tickets.{TicketsHoldTheView};

/// Whatever world the engine agrees with, each open session finds its view through each index in use that it may scan. Through
/// each, it finds the view as it is and as it was at each savepoint. A session that would begin now finds what is committed, by
/// each index in use.
pub fn views_by_index()
    ensures { ViewsByIndex }
{}

/// The horizon is the earliest of the next id, the xmin of each snapshot that is kept and all open ids. Yet of each session's ids
/// it is reckoned from the first alone. (GetOldestNonRemovableTransactionId in src/backend/storage/ipc/procarray.c.)
pub fn horizon_is_earliest()
    ensures { HorizonIsEarliest }
{}

/// Tickets that an open session takes of all pages at one state, hold its whole view, and each row once.
pub fn tickets_hold_the_view()
    ensures { TicketsHoldTheView }
{}
