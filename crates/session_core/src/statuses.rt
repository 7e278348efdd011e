//! The status of an id.

ghost use Rattle.std.specs.Prelude.{◌≡◌};
ghost use Rattle.commit_status.specs.Window.{status_of};
ghost use Rattle.visibility.specs.Visible.{state_of};
ghost use Rattle.status_cache.specs.Held.{KeepsCache};

use crate::engine::Engine;
use commit_status::{Status, StatusTable};
use status_cache::StatusCache;
use xid_circle::Xid;

/// The status of an id, by the cache, if there is one.
fn status_by(cache: &mut Option<StatusCache>, statuses: &StatusTable, x: Xid) -> Status
    requires { KeepsCache cache.old statuses.now }
    ensures value { result ≡ status_of statuses.now x.0 }
    ensures keeps { KeepsCache cache.new statuses.now }
{
    let Some(cache) = cache else {
        return statuses.status(x);
    };
    let status = cache.status(statuses, x);
    cache.fact_cache();
    status
}

impl Engine {
    /// The status of an id, such as one that a version on a page names; nothing where it was not given, or is forgotten. It is no
    /// step, and changes nothing. Ids that were asked for last are told by the engine's cache, others by its table, with the same
    /// answer. (pg_xact_status in the manual's "Transaction ID and Snapshot Information Functions".)
    pub fn status_of(&mut self, x: Xid) -> Option<Status>
        ensures same { self.new ≡ self.old }
        ensures value { result ≡ state_of self.old.engine.core.heap.statuses x.0 }
    {
        self.make_cache();
        if !self.core.statuses().remembers(x) {
            return None;
        }
        Some(status_by(&mut self.cache, self.core.statuses(), x))
    }

    /// Makes the cache of statuses, unless there is one, or no memory for one.
    fn make_cache(&mut self)
        ensures { self.new ≡ self.old }
    {
        if self.cache.is_some() {
            return;
        }
        if let Ok(cache) = StatusCache::new(self.alloc) {
            self.cache = Some(cache);
        }
    }
}
