//! The headers that writes make.

ghost use Rattle.std.specs.Prelude.{◌≡◌, ◌≤◌, None};
ghost use Rattle.xid_circle.specs.Circle.{IsNormal};
ghost use Rattle.tuple_header.specs.Faults.{header_fault};
ghost use Rattle.tuple_writes.specs.Headers.{marked_hot, replaced_header, root_header, heap_only_header};
ghost use Rattle.tuple_header.specs.declared.version.TheConstants.{MOST_SLOTS};

use tuple_header::Header;
use xid_circle::{Tid, Xid};

/// All marks of a chain but that of a HOT update, and the number of attributes.
const BUT_HOT_UPDATED: u16 = 0xbfff;
/// All marks of both ids but those that say what became of the deleter.
const BUT_DELETER: u16 = 0xf3ff;

/// The marks of a chain, with that of a HOT update set or cleared.
fn marked_hot(hot: bool, mask2: u16) -> u16
    ensures { result ≡ marked_hot hot mask2 }
{
    let others = mask2 & BUT_HOT_UPDATED;
    if hot {
        Header::HOT_UPDATED | others
    } else {
        others
    }
}

/// The header of a version that `x`, a normal id, replaced by one at `place`, whose slot is from 1 to 291: `hot` says whether by a
/// HOT update. All notes of an earlier deleter are cleared, so an aborted one leaves no trace. (PostgreSQL, `heap_update` in
/// src/backend/access/heap/heapam.c.)
pub fn replace_header(header: &Header, x: Xid, place: Tid, hot: bool) -> Header
    requires faultless { header_fault header.now ≡ None }
    requires normal { IsNormal x.0 }
    requires from { 1 ≤ place.slot }
    requires to { place.slot ≤ MOST_SLOTS }
    ensures value { result ≡ replaced_header header.now x.0 place.page place.slot hot }
    ensures faultless { header_fault result ≡ None }
{
    Header {
        xmin: header.xmin,
        xmax: x,
        ctid: place,
        mask2: marked_hot(hot, header.mask2),
        mask: header.mask & BUT_DELETER,
    }
}

/// The header of a version that `x`, a normal id, has just made at `place`, a slot from 1 to 291, as a root. `updated`
/// says whether it was made by an update, which was not HOT, or by an insert.
pub fn root(updated: bool, x: Xid, place: Tid) -> Header
    requires normal { IsNormal x.0 }
    requires from { 1 ≤ place.slot }
    requires to { place.slot ≤ MOST_SLOTS }
    ensures value { result ≡ root_header updated x.0 place.page place.slot }
    ensures faultless { header_fault result ≡ None }
{
    let mask = if updated {
        Header::UPDATED | Header::XMAX_INVALID
    } else {
        Header::XMAX_INVALID
    };
    Header {
        mask,
        ..Header::new(x, place)
    }
}

/// The header of a version that `x`, a normal id, has just made at `place`, a slot from 1 to 291, by a HOT update.
/// (README.HOT: a heap-only tuple has no index entry of its own.)
pub fn heap_only(x: Xid, place: Tid) -> Header
    requires normal { IsNormal x.0 }
    requires from { 1 ≤ place.slot }
    requires to { place.slot ≤ MOST_SLOTS }
    ensures value { result ≡ heap_only_header x.0 place.page place.slot }
    ensures faultless { header_fault result ≡ None }
{
    Header {
        mask2: Header::ATTRIBUTES | Header::HEAP_ONLY,
        mask: Header::UPDATED | Header::XMAX_INVALID,
        ..Header::new(x, place)
    }
}
