//! The laws of pruning. Each function does nothing: its contract is the law.

ghost use Rattle.prune.specs.Laws.{PruningHasOneOutcome, RemovingIsNeverSeen, PruningIsNeverSeen, CheckedIsNeverSeen, CheckedRaises, ChecksAtEitherEnd, NothingDeadStays, SoundStaysSound, PruningIsDoneOnce, ThinningKeepsSound, PruningThins, CheckedThins};

/// Where no slot is in the chains of two roots, there is one answer for each slot, and one page after pruning.
pub fn pruning_has_one_outcome()
    ensures { PruningHasOneOutcome }
{}

/// Whatever goes from a sound page is missed by no reader, as long as only what would be cut goes.
pub fn removing_is_never_seen()
    ensures { RemovingIsNeverSeen }
{}

/// On a sound page each reader finds after pruning what it found before, in the same slot.
pub fn pruning_is_never_seen()
    ensures { PruningIsNeverSeen }
{}

/// A plan that checks takes nothing from a sound page that any reader finds.
pub fn checked_is_never_seen()
    ensures { CheckedIsNeverSeen }
{}

/// A plan that names nothing checks; none does that names a redirect with the target that it has.
pub fn checks_at_either_end()
    ensures { ChecksAtEitherEnd }
{}

/// After pruning a sound page no version on it is dead.
pub fn nothing_dead_stays()
    ensures { NothingDeadStays }
{}

/// A sound page stays sound under pruning, with the same chains as far as they are kept.
pub fn sound_stays_sound()
    ensures { SoundStaysSound }
{}

/// A second pruning of a sound page changes nothing.
pub fn pruning_is_done_once()
    ensures { PruningIsDoneOnce }
{}

/// A plan that checks raises the change number, modulo 2^64, once for each slot that it names: each is changed.
pub fn checked_raises()
    ensures { CheckedRaises }
{}

/// A sound page stays sound where a prefix of each chain goes that would be cut, with the same chains as far as they are kept.
pub fn thinning_keeps_sound()
    ensures { ThinningKeepsSound }
{}

/// Pruning takes such a prefix of each chain of a sound page.
pub fn pruning_thins()
    ensures { PruningThins }
{}

/// A plan that checks takes such a prefix too, no matter who made it.
pub fn checked_thins()
    ensures { CheckedThins }
{}
