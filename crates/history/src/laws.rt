//! Laws of every run that begins where nothing has committed and no session is open, whichever columns are indexed. Each is
//! the contract of a function that does nothing.

ghost use Rattle.std.specs.Prelude.{ℕ, ◌≢◌, List, Bool};
ghost use Rattle.history.specs.World.{World, beginning};
ghost use Rattle.history.specs.Events.{Happens, StepsReach};
ghost use Rattle.history.specs.Laws.{FirstCommitterWins, Grows, HasFew, HasFewLevels, HeldInTime, HeldOnce, HoldersHaveWritten, KeepsIndexes, KeepsView, NeverLate, NeverTooNew};

/// The first committer wins. Of two transactions that wrote one key, the second to commit wrote it by a snapshot that was taken
/// after the first had committed (Berenson et al. 1995, snapshot isolation).
pub fn first_committer_wins()
    ensures { (columns : List Bool) (w : World) → StepsReach (beginning columns) w
        → FirstCommitterWins w.history }
{}

/// What is in an open session's levels, nobody has written who committed since the snapshot of that write was taken.
pub fn held_keys_are_in_time()
    ensures { (columns : List Bool) (w : World) → StepsReach (beginning columns) w → HeldInTime w }
{}

/// No two open sessions hold one key.
pub fn keys_are_held_once()
    ensures { (columns : List Bool) (w : World) → StepsReach (beginning columns) w → HeldOnce w }
{}

/// Whoever holds a key has written. Where nobody has, as where an index is made, no key is held.
pub fn holders_have_written()
    ensures { (columns : List Bool) (w : World) → StepsReach (beginning columns) w
        → HoldersHaveWritten w }
{}

/// The history only grows.
pub fn history_only_grows()
    ensures { (columns : List Bool) (w : World) (after : World) → StepsReach (beginning columns) w
        → StepsReach w after → Grows w after }
{}

/// What a session reads by snapshot, and all else that is its own, never changes but by its own steps. What it reads by statement
/// changes besides where another commits. For whom it waits is kept apart.
pub fn views_stay()
    ensures { (columns : List Bool) (w : World) (after : World) (s : ℕ) (other : ℕ)
        → StepsReach (beginning columns) w → Happens w other after → s ≢ other
        → KeepsView s w after }
{}

/// A write by statement never meets a later commit: there is no Conflict.
pub fn no_write_by_statement_is_late()
    ensures { (w : World) → NeverLate w }
{}

/// An index that is there stays.
pub fn indexes_stay()
    ensures { (columns : List Bool) (w : World) (after : World) → StepsReach (beginning columns) w
        → StepsReach w after → KeepsIndexes w after }
{}

/// No index is ever too new for a session that reads by statement.
pub fn no_index_is_too_new_by_statement()
    ensures { (columns : List Bool) (w : World) → StepsReach (beginning columns) w → NeverTooNew w }
{}

/// No session is open under a number from 64 on.
pub fn few_sessions_are_open()
    ensures { (columns : List Bool) (w : World) → StepsReach (beginning columns) w → HasFew w }
{}

/// No session has more than 32 savepoints.
pub fn few_savepoints_are_kept()
    ensures { (columns : List Bool) (w : World) → StepsReach (beginning columns) w
        → HasFewLevels w }
{}
