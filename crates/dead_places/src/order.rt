//! The order of places.

ghost use Rattle.std.specs.Prelude.{◌≡◌};
ghost use Rattle.dead_places.specs.Places.{place_order};

use std::cmp::Ordering;
use xid_circle::Tid;

/// How two places compare: by page, then slot.
pub fn compare_places(a: &Tid, b: &Tid) -> Ordering
    ensures { result ≡ place_order a.now b.now }
{
    if a.page != b.page {
        return a.page.cmp(&b.page);
    }
    a.slot.cmp(&b.slot)
}
