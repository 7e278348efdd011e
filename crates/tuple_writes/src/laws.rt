//! The laws of writes on a page, and of what becomes of transactions. Each function does nothing: its contract is the law.

ghost use Rattle.tuple_writes.specs.Laws.{AddingKeepsSound, SettingXmaxKeepsSound, HotUpdatingKeepsSound, SettingXmaxIsCounted, GivingKeepsSound, CommittingKeepsSound, AbortingKeepsSound};

/// A sound page stays sound when an id in progress adds a root. Only the free slot changes, and its version is in no chain
/// but its own; every index entry stays right.
pub fn adding_keeps_sound()
    ensures { AddingKeepsSound }
{}

/// A sound page stays sound when an id in progress deletes a version or replaces it by one elsewhere. The version must have
/// an inserter that isn't aborted, and no deleter or an aborted one. Only its slot changes, and each chain has what it had.
pub fn setting_xmax_keeps_sound()
    ensures { SettingXmaxKeepsSound }
{}

/// A sound page stays sound when an id in progress replaces such a version by a heap-only one on the page. Only its slot
/// and the free one change, and the new version is in the chain of the old one's root.
pub fn hot_updating_keeps_sound()
    ensures { HotUpdatingKeepsSound }
{}

/// Where an id in progress takes such a version away, by a delete or either kind of update, the change number is raised.
pub fn setting_xmax_is_counted()
    ensures { SettingXmaxIsCounted }
{}

/// A page stays sound when an id is given.
pub fn giving_keeps_sound()
    ensures { GivingKeepsSound }
{}

/// A page stays sound when ids in progress commit, if whatever they deleted was made by a frozen or committed id, or by
/// one of them.
pub fn committing_keeps_sound()
    ensures { CommittingKeepsSound }
{}

/// A page stays sound when ids in progress are aborted, if whatever they made was deleted by nobody, by an aborted id, or
/// by one of them.
pub fn aborting_keeps_sound()
    ensures { AbortingKeepsSound }
{}
