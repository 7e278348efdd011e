//! The laws of visibility. Each function does nothing: its contract is the law.

ghost use Rattle.visibility.specs.Laws.{DeadIsUnseen, FinishingUnseen, GivingIsUnseen, ListingNobodyCountsCommitted};

/// No verdict of a reader changes when ids that it neither owns nor sees are committed or aborted.
pub fn finishing_unseen_ids_changes_no_verdict()
    ensures { FinishingUnseen }
{}

/// No verdict of a reader changes when an id is given.
pub fn giving_changes_no_verdict()
    ensures { GivingIsUnseen }
{}

/// Nobody sees a dead version: no reader whose snapshot's xmin is not before the horizon, and whose own ids are in progress.
pub fn dead_is_unseen()
    ensures { DeadIsUnseen }
{}

/// Who reads by the snapshot that lists nobody, at the next id, counts its own ids and all that has committed. So a statement
/// needs no list.
pub fn listing_nobody_counts_committed()
    ensures { ListingNobodyCountsCommitted }
{}
