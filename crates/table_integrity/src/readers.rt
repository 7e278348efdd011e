//! The rows that readers find after each step. Each function does nothing: its contract is the law.

ghost use Rattle.table_integrity.specs.Readers.{PruningIsUnseen, ApplyingIsUnseen, InsertingIsUnseen, UpdatingIsUnseen, DeletingIsUnseen, InsertIsFound, UpdateIsFound, DeleteIsFound};
ghost use Rattle.table_integrity.specs.ByKey.{InsertPutsRow, UpdatePutsRow, DeleteTakesRow};

/// No reader can tell that a page was pruned.
pub fn pruning_is_unseen()
    ensures { PruningIsUnseen }
{}

/// No reader can tell that a plan was applied that checks.
pub fn applying_is_unseen()
    ensures { ApplyingIsUnseen }
{}

/// No reader that doesn't own the id of an insert can tell that there was one.
pub fn inserting_is_unseen()
    ensures { InsertingIsUnseen }
{}

/// No reader that doesn't own the id of an update can tell that there was one, even if it has pruned a page.
pub fn updating_is_unseen()
    ensures { UpdatingIsUnseen }
{}

/// No reader that doesn't own the id of a delete can tell that there was one.
pub fn deleting_is_unseen()
    ensures { DeletingIsUnseen }
{}

/// After an insert its writer finds what it found before, and the row at one more place.
pub fn insert_is_found()
    ensures { InsertIsFound }
{}

/// After an update its writer finds what it found elsewhere before, and the new row at one place that held nothing for it.
pub fn update_is_found()
    ensures { UpdateIsFound }
{}

/// After a delete its writer finds what it found elsewhere before, and nothing else.
pub fn delete_is_found()
    ensures { DeleteIsFound }
{}

/// After an insert the writer reads the new row and no other of its key, if it read none of the key before. All other keys it
/// reads as before.
pub fn insert_puts_row()
    ensures { InsertPutsRow }
{}

/// After an update the writer reads the new row and no other of its key, if it read no
/// version of the key but the old one before. All other keys it reads as before.
pub fn update_puts_row()
    ensures { UpdatePutsRow }
{}

/// After a delete the writer reads no row of the key, if it read no other version of it before. All other keys it reads as
/// before.
pub fn delete_takes_row()
    ensures { DeleteTakesRow }
{}
