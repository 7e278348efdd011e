//! The earliest of several ids.

ghost use Rattle.std.specs.Prelude.{◌≡◌};
ghost use Rattle.xid_circle.specs.Circle.{IsNormal};
ghost use Rattle.snapshot.specs.Snap.{earlier};

use xid_circle::{Xid, precedes};

/// The earlier of two ids. Over all open snapshots' xmin, all open transactions' first ids and the next id this gives
/// the horizon. No open snapshot, nor one that is taken later, misses what committed before the horizon.
pub fn earlier(a: Xid, b: Xid) -> Xid
    ensures value { result.0 ≡ earlier a.0 b.0 }
    ensures normal { IsNormal a.0 → IsNormal b.0 → IsNormal result.0 }
{
    if precedes(b, a) { b } else { a }
}
