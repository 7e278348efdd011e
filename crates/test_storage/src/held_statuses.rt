//! What a cache of statuses holds, reckoned by hand.

ghost use Rattle.status_cache.specs.Held.{CacheAgrees};

use crate::statuses::table_with;
use crate::steps::{Step, run};
use commit_status::StatusTable;
use status_cache::StatusCache;
use std::alloc::{AllocError, Global};
use std::test::Fail;
use xid_circle::Xid;

/// Asks for each id from 3 up to but without this one.
fn ask_up_to(cache: &mut StatusCache, statuses: &StatusTable, end: u32)
    requires { CacheAgrees cache.old statuses.now }
{
    for x in 3..end {
        cache.status(statuses, Xid(x));
    }
}

/// A cache is asked for each id from 3 up to but without the first, and truncated at the second. Then it holds so many, and
/// each of these two or not.
struct Asking(u32, u32, usize, (u32, bool), (u32, bool));

impl Step for Asking {
    type Subject = StatusTable;

    fn is_so(&self, alloc: Global, statuses: &mut StatusTable) -> Result<bool, AllocError> {
        let mut cache = StatusCache::new(alloc)?;
        ask_up_to(&mut cache, statuses, self.0);
        cache.truncate(Xid(self.1));
        cache.fact_cache();
        let (first, last) = (self.3, self.4);
        Ok(
            cache.len() == self.2
                && cache.holds(Xid(first.0)) == first.1
                && cache.holds(Xid(last.0)) == last.1,
        )
    }
}

/// Id 1028 is in progress, and all before it are committed.
static ASKINGS: [Asking; 4] = [
    Asking(1028, 3, 1024, (3, false), (1027, true)),
    Asking(7, 7, 0, (3, false), (6, false)),
    Asking(7, 5, 2, (4, false), (5, true)),
    Asking(1029, 1027, 1, (1027, true), (1028, false)),
];

#[test]
fn the_first_of_1025_ids_leaves(rt: HostRuntime) -> Result<(), Fail> {
    run(rt.alloc(), table_with(rt.alloc(), 1026), &ASKINGS)
}
