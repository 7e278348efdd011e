//! The cache.

ghost use Rattle.std.specs.Prelude.{◌≡◌, ◌≤◌, ◌↔◌, ◌∷◌, ◌++◌, [], ℕ, List, length, nat_eq, IsTrue, IfOk, IfSome, Some, slice_get};
ghost use Rattle.std.specs.Map.{lookup};
ghost use Rattle.lru.specs.LruCache.{promoted};
ghost use Rattle.commit_status.specs.Window.{status_of};
ghost use Rattle.commit_status.specs.declared.status.Status.{Status};
ghost use Rattle.status_cache.specs.Held.{IsCached, IsCache, CacheAgrees, CacheAnswers, CachesStatus, held_from};

use commit_status::{Status, StatusTable};
use lru::LruCache;
use std::alloc::{AllocError, Global};
use std::marker::Model;
use std::num::NonZeroUsize;
use xid_circle::{Xid, precedes};

/// How many ids a cache holds at most.
pub const MOST_STATUSES: usize = 1024;

/// The statuses of the ids that were asked for last: of at most [`MOST_STATUSES`], committed and aborted ones alone.
#[derive(Drop)]
pub struct StatusCache {
    kept: LruCache<u32, Status>,
}

impl Model for StatusCache {
    ghost use Rattle.std.specs.Prelude.{ℕ, List};
    ghost use Rattle.commit_status.specs.declared.status.Status.{Status};
    ghost use Rattle.status_cache.specs.Held.{IsStatusCache};

    ghost Value = { List (ℕ × Status) };

    ghost view = { λ c. c.kept.entries };

    ghost invariant = { λ c. IsStatusCache c.kept.entries c.kept.cap };
}

/// The id that was asked for longest ago leaves if it is before `x`, else it comes first.
fn pass_last(kept: &mut LruCache<u32, Status>, x: Xid)
    ensures entries { (front : List (ℕ × Status)) (last : ℕ × Status)
        → kept.old.entries ≡ front ++ last ∷ []
        → kept.new.entries ≡ held_from x.0 (last ∷ []) ++ front }
    ensures capacity { kept.new.cap ≡ kept.old.cap }
{
    if kept.len() == 0 {
        return;
    }
    let Some((last, _)) = kept.peek_lru() else {
        return;
    };
    let last = *last;
    if precedes(Xid(last), x) {
        kept.pop_lru();
    } else {
        kept.promote(&last);
    }
}

/// Drops each id before `x`.
fn drop_before(kept: &mut LruCache<u32, Status>, x: Xid)
    ensures entries { kept.new.entries ≡ held_from x.0 kept.old.entries }
    ensures capacity { kept.new.cap ≡ kept.old.cap }
{
    for _ in 0..kept.len() {
        pass_last(kept, x);
    }
}

impl StatusCache {
    /// A cache that holds nothing. Memory for the places of all its ids is asked for at once.
    pub fn new(alloc: Global) -> Result<StatusCache, AllocError>
        ensures { IfOk result (λ c. c ≡ []) }
    {
        let capacity = NonZeroUsize::new(MOST_STATUSES).unwrap_or(NonZeroUsize::MIN);
        Ok(StatusCache {
            kept: LruCache::new(alloc, capacity)?,
        })
    }

    /// That no id is held twice, nor more ids than a cache holds, and that each is committed or aborted.
    pub fn fact_cache(&self)
        ensures { IsCache self.now }
    {
        let _len = self.kept.len();
    }

    /// What became of an id, as the table says it. It is held from then on if it is committed or aborted, in the place of the one
    /// asked for longest ago where the cache is full. Without memory for it the cache stays as it was, and the answer is the same.
    pub fn status(&mut self, statuses: &StatusTable, x: Xid) -> Status
        requires { CacheAgrees self.old statuses.now }
        ensures value { result ≡ status_of statuses.now x.0 }
        ensures agrees { CacheAgrees self.new statuses.now }
        ensures asks { CacheAnswers self.old self.new x.0 result }
    {
        if let Some(status) = self.find(x) {
            return status;
        }
        let status = statuses.status(x);
        self.keep(x, status);
        status
    }

    /// The status of an id, if it is the first that is held. This takes no hash, and neighbours on a page mostly have one inserter.
    fn status_of_first(&self, x: Xid) -> Option<Status>
        ensures { IfSome result (λ status. Some (x.0, status) ≡ slice_get self.now 0) }
    {
        let (first, status) = self.kept.peek_mru()?;
        if *first == x.0 { Some(*status) } else { None }
    }

    /// The status of an id, if it is held; it comes first then.
    fn find(&mut self, x: Xid) -> Option<Status>
        ensures value { result ≡ lookup (nat_eq x.0) self.old }
        ensures kept { self.new ≡ promoted (nat_eq x.0) self.old }
    {
        if let Some(status) = self.status_of_first(x) {
            return Some(status);
        }
        self.kept.get(&x.0).copied()
    }

    /// Keeps the status of an id that is not held, if it has ended and there is memory.
    fn keep(&mut self, x: Xid, status: Status)
        requires { ¬ IsCached self.old x.0 }
        ensures { CachesStatus self.old self.new x.0 status }
    {
        if status != Status::InProgress {
            let _ = self.kept.put(x.0, status);
        }
    }

    /// Whether an id is held. (What is kept is private, here and below.)
    pub fn holds(&self, x: Xid) -> bool
        ensures { IsTrue result ↔ IsCached self.now x.0 }
    {
        self.kept.contains(&x.0)
    }

    /// How many ids are held.
    pub fn len(&self) -> usize
        ensures value { result ≡ length self.now }
        ensures few { result ≤ MOST_STATUSES }
    {
        self.kept.len()
    }

    /// Drops each id before `x`, and leaves the others in their order. It takes no memory.
    pub fn truncate(&mut self, x: Xid)
        ensures { self.new ≡ held_from x.0 self.old }
    {
        drop_before(&mut self.kept, x);
    }
}
