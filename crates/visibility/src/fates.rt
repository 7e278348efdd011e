//! Which versions nobody can see any more.

ghost use Rattle.std.specs.Prelude.{◌≡◌, ◌↔◌, None};
ghost use Rattle.tuple_header.specs.Faults.{header_fault};
ghost use Rattle.visibility.specs.Visible.{IsDead};

use crate::verdict::Fate;
use commit_status::StatusTable;
use tuple_header::{Header, Tuple};
use xid_circle::{Xid, precedes};

/// The fate of the version with this header. It is dead where its inserter was rolled back, or where its deleter
/// committed and stands before the horizon. No hint is read.
pub fn fate_of(header: &Header, horizon: Xid, statuses: &StatusTable) -> Fate
    requires { header_fault header.now ≡ None }
    ensures { (result ≡ Fate.Dead) ↔ IsDead statuses.now horizon.0 header.now }
{
    if !header.is_frozen() && statuses.is_aborted(header.xmin) {
        return Fate::Dead;
    }
    if statuses.is_committed(header.xmax) && precedes(header.xmax, horizon) {
        return Fate::Dead;
    }
    Fate::Kept
}

/// The fate of a version. (It is for who has a version whole. A page has the header and the row apart.)
pub fn fate(tuple: &Tuple, horizon: Xid, statuses: &StatusTable) -> Fate
    ensures { (result ≡ Fate.Dead) ↔ IsDead statuses.now horizon.0 tuple.now.header }
{
    fate_of(&tuple.header, horizon, statuses)
}
