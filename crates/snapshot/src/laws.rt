//! The laws of snapshots. Each function does nothing: its contract is the law.

ghost use Rattle.snapshot.specs.Laws.{OpenIsUnseen, LaterIsUnseen, FinishedIsSeen, PastIsSeen, SeesByTop, TakenIsInWindow, EarliestIsFirst};

/// An id in progress when a snapshot is taken is unseen by it, also after it has finished.
pub fn open_is_unseen()
    ensures { OpenIsUnseen }
{}

/// An id that is given after a snapshot was taken is unseen by it.
pub fn later_is_unseen()
    ensures { LaterIsUnseen }
{}

/// An id that had finished with its topmost parent when a snapshot was taken is seen by it.
pub fn finished_is_seen()
    ensures { FinishedIsSeen }
{}

/// An id before a horizon is seen by each snapshot whose xmin is not before it.
pub fn past_is_seen()
    ensures { PastIsSeen }
{}

/// What a snapshot sees changes only with an id's topmost parent.
pub fn sees_by_top()
    ensures { SeesByTop }
{}

/// A snapshot that is taken now names ids from the first that is remembered up to the next, and each that it lists is from
/// xmin on and before xmax.
pub fn taken_is_in_window()
    ensures { TakenIsInWindow }
{}

/// The earliest of several ids is one of them, and none was given before it.
pub fn earliest_is_first()
    ensures { EarliestIsFirst }
{}
