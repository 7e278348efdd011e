//! The laws of sound entries. Each function does nothing: its contract is the law.

ghost use Rattle.sound_entries.specs.Laws.{LedByEntry, EachRootHasEntry, FoundByIndex, TouchedByIndex, FoundIsOnHeap, TheRowIsFound, PlaceIsOnHeap, NewerCommitIsOnHeap, OtherWriterIsOnHeap, WhoMayScanSeesNoExcused, WhoBeginsMayScan, GivingKeepsSince, FinishingKeepsSince, NoEntriesAreSound, AddingKeepsEntries, TakingKeepsEntries, UpdatingKeepsEntries, PruningKeepsEntries, ThinningKeepsEntries, PagesGrowSound, EntriesGoSound, GivingKeepsEntries, CommittingKeepsEntries, AbortingKeepsEntries, LedByTwoSteps};

/// A version that is neither undone nor excused is in the chain of exactly one entry, which has its value and its key.
pub fn led_by_entry()
    ensures { LedByEntry }
{}

/// In an index that always was exact each root and redirect has an entry.
pub fn each_root_has_entry()
    ensures { EachRootHasEntry }
{}

/// A reader who sees no excused version finds the same by the index as on the heap.
pub fn found_by_index()
    ensures { FoundByIndex }
{}

/// An index that always was exact finds all that an id made or deleted, if the id isn't aborted.
pub fn touched_by_index()
    ensures { TouchedByIndex }
{}

/// Where the entries are sound and no excused version is seen, the row that is found is that of a version on the heap, and none
/// where there is none.
pub fn found_is_on_heap()
    ensures { FoundIsOnHeap }
{}

/// Where besides at most one version of the value and the key is seen, its row is found.
pub fn the_row_is_found()
    ensures { TheRowIsFound }
{}

/// Where the entries are sound and no excused version is seen, the place that is found is that of a version on the heap, and none
/// where there is none.
pub fn place_is_on_heap()
    ensures { PlaceIsOnHeap }
{}

/// Where the index always was exact, the ids that a write check names are those of versions on the heap.
pub fn newer_commit_is_on_heap()
    ensures { NewerCommitIsOnHeap }
{}

/// Where the index always was exact, the other writers that a check for a write names are those of versions on the heap.
pub fn other_writer_is_on_heap()
    ensures { OtherWriterIsOnHeap }
{}

/// A reader whose snapshot's xmin is not before the id from which on an index is exact sees no version that the index leaves out.
pub fn who_may_scan_sees_no_excused()
    ensures { WhoMayScanSeesNoExcused }
{}

/// A snapshot that is taken now may scan an index that is exact from an id on.
pub fn who_begins_may_scan()
    ensures { WhoBeginsMayScan }
{}

/// No id in progress is before that from which on an index is exact, when one more is given.
pub fn giving_keeps_since()
    ensures { GivingKeepsSince }
{}

/// Nor is one when ids end.
pub fn finishing_keeps_since()
    ensures { FinishingKeepsSince }
{}

/// A table without pages is sound, with an index without entries.
pub fn no_entries_are_sound()
    ensures { NoEntriesAreSound }
{}

/// The table stays sound when an id in progress adds a root, with one entry for it.
pub fn adding_keeps_entries()
    ensures { AddingKeepsEntries }
{}

/// The table stays sound when an id in progress deletes a version or replaces it by one elsewhere. The entries stay.
pub fn taking_keeps_entries()
    ensures { TakingKeepsEntries }
{}

/// The table stays sound when an id in progress replaces a version by a heap-only one of the same value and key. The
/// entries stay.
pub fn updating_keeps_entries()
    ensures { UpdatingKeepsEntries }
{}

/// The table stays sound when a page is pruned. The entries stay.
pub fn pruning_keeps_entries()
    ensures { PruningKeepsEntries }
{}

/// The table stays sound when of each chain of a page a prefix goes that pruning would cut. The entries stay.
pub fn thinning_keeps_entries()
    ensures { ThinningKeepsEntries }
{}

/// The table stays sound when a page comes into use.
pub fn pages_grow_sound()
    ensures { PagesGrowSound }
{}

/// The table stays sound when entries go that lead to dead slots.
pub fn entries_go_sound()
    ensures { EntriesGoSound }
{}

/// The table stays sound when an id is given.
pub fn giving_keeps_entries()
    ensures { GivingKeepsEntries }
{}

/// The table stays sound when ids in progress commit, if whatever they deleted was made by a frozen or committed id, or
/// by one of them.
pub fn committing_keeps_entries()
    ensures { CommittingKeepsEntries }
{}

/// The table stays sound when ids in progress are aborted, if whatever they made was deleted by nobody, by an aborted id,
/// or by one of them.
pub fn aborting_keeps_entries()
    ensures { AbortingKeepsEntries }
{}

/// If each of two steps keeps what entries lead to, and the first keeps the entries, both together keep it.
pub fn led_by_two_steps()
    ensures { LedByTwoSteps }
{}
