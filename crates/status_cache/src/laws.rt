//! The laws of a cache of statuses. Each function does nothing: its contract is the law.

ghost use Rattle.status_cache.specs.Laws.{GivingKeepsCache, FinishingKeepsCache, TruncatingKeepsCache};

/// A cache goes on to agree with the table when an id is given.
pub fn giving_keeps_cache()
    ensures { GivingKeepsCache }
{}

/// A cache goes on to agree with the table when ids in progress are committed or aborted.
pub fn finishing_keeps_cache()
    ensures { FinishingKeepsCache }
{}

/// A cache goes on to agree with the table when both are truncated at one id.
pub fn truncating_keeps_cache()
    ensures { TruncatingKeepsCache }
{}
