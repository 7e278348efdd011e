//! The properties of a table that each step keeps. Each function does nothing: its contract is the law.

ghost use Rattle.table_integrity.specs.Laws.{InsertingKeepsTable, UpdatingKeepsTable, DeletingKeepsTable, FailingUpdateKeepsTable, PruningKeepsTable, ApplyingKeepsTable, KeepingKeepsTable, CommittingKeepsTable, AbortingKeepsTable, EmptyTableIsSound};
ghost use Rattle.table_integrity.specs.Making.{MakingLeavesTableSound, MakingKeepsTargets, MakingKeepsSince};
ghost use Rattle.table_integrity.specs.Forgetting.{ForgettingKeepsTable, ForgettingKeepsSince, ForgettingKeepsScan};

/// A table stays sound when a row is inserted.
pub fn inserting_keeps_table()
    ensures { InsertingKeepsTable }
{}

/// A table stays sound when a version that may be taken away is updated to a row of the same key. The row may go to
/// the version's page or to another, whether or not the version's page is pruned for that.
pub fn updating_keeps_table()
    ensures { UpdatingKeepsTable }
{}

/// A table stays sound when a version that may be taken away is deleted.
pub fn deleting_keeps_table()
    ensures { DeletingKeepsTable }
{}

/// A table stays sound when an update fails, even if it has pruned a page before.
pub fn failing_update_keeps_table()
    ensures { FailingUpdateKeepsTable }
{}

/// A table stays sound when a page is pruned at the horizon.
pub fn pruning_keeps_table()
    ensures { PruningKeepsTable }
{}

/// A table stays sound when a plan that checks at the horizon is applied to a page.
pub fn applying_keeps_table()
    ensures { ApplyingKeepsTable }
{}

/// A table stays sound when it has more memory.
pub fn keeping_keeps_table()
    ensures { KeepingKeepsTable }
{}

/// A table stays sound when ids commit that have deleted only what was made by themselves, or is frozen or committed.
pub fn committing_keeps_table()
    ensures { CommittingKeepsTable }
{}

/// A table stays sound when ids are aborted whose versions nobody else has deleted.
pub fn aborting_keeps_table()
    ensures { AbortingKeepsTable }
{}

/// A table without pages is sound.
pub fn empty_table_is_sound()
    ensures { EmptyTableIsSound }
{}

/// A table stays sound when an index is made while nobody is open.
pub fn making_leaves_table_sound()
    ensures { MakingLeavesTableSound }
{}

/// Entries lead where they led when an index is made.
pub fn making_keeps_targets()
    ensures { MakingKeepsTargets }
{}

/// When an index is made while nobody is open, each id from which on an index is exact is remembered or next, and no id in progress is
/// before it.
pub fn making_keeps_since()
    ensures { MakingKeepsSince }
{}

/// A table whose versions need no forgotten id stays sound when old ids are forgotten.
pub fn forgetting_keeps_table()
    ensures { ForgettingKeepsTable }
{}

/// When old ids are forgotten, the id from which on an index is exact becomes the cutoff, or stays remembered or next.
pub fn forgetting_keeps_since()
    ensures { ForgettingKeepsSince }
{}

/// When old ids are forgotten, a reader that might scan an index still may.
pub fn forgetting_keeps_scan()
    ensures { ForgettingKeepsScan }
{}
