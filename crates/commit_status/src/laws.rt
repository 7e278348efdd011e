//! The laws of a window. Each function does nothing: its contract is the law.

ghost use Rattle.commit_status.specs.Laws.{PlacesAreTurns, TopsAreTopmost};

/// The place of an id is the number of turns after the first at which it is given.
pub fn places_are_turns()
    ensures { PlacesAreTurns }
{}

/// The topmost parent of an id is its parent's, or itself where it has none.
pub fn tops_are_topmost()
    ensures { TopsAreTopmost }
{}
