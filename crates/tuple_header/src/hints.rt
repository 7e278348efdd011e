//! The marks of a header that are hints.

ghost use Rattle.std.specs.Prelude.{◌≡◌};
ghost use Rattle.tuple_header.specs.Hints.{lasting_marks, same_but_hints};

use crate::version::Header;
use xid_circle::Xid;

/// The marks that are no hints.
fn lasting(header: &Header) -> u16
    ensures { result ≡ lasting_marks header.now }
{
    let frozen = if header.is_frozen() {
        Header::XMIN_FROZEN
    } else {
        0
    };
    let no_deleter = if header.xmax == Xid::INVALID {
        header.mask & Header::XMAX_INVALID
    } else {
        0
    };
    header.mask & Header::UPDATED | frozen | no_deleter
}

/// Whether two headers differ in hints alone, or not at all.
pub fn differ_in_hints_alone(a: &Header, b: &Header) -> bool
    ensures { result ≡ same_but_hints a.now b.now }
{
    a.xmin == b.xmin
        && a.xmax == b.xmax
        && a.ctid == b.ctid
        && a.mask2 == b.mask2
        && lasting(a) == lasting(b)
}
