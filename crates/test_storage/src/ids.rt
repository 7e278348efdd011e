//! Ids on the circle, which go round.

use xid_circle::{Xid, distance, next, precedes};

/// Whether the first of two normal ids precedes the second.
fn is_before(a: Xid, b: Xid) -> Option<bool> {
    if a.is_normal() && b.is_normal() {
        Some(precedes(a, b))
    } else {
        None
    }
}

/// How far it is from the first of two normal ids to the second.
fn ahead(a: Xid, b: Xid) -> Option<u32> {
    if a.is_normal() && b.is_normal() {
        Some(distance(a, b))
    } else {
        None
    }
}

/// The id after a normal one.
fn after(a: Xid) -> Option<Xid> {
    if a.is_normal() { Some(next(a)) } else { None }
}

static PAIRS: [(Xid, Xid, Option<bool>, Option<u32>); 7] = [
    (Xid(4294967295), Xid(3), Some(true), Some(4)),
    (Xid(4294967294), Xid(3), Some(true), Some(5)),
    (Xid(3), Xid(4294967295), Some(false), Some(4294967292)),
    (Xid(3), Xid(2147483650), Some(true), Some(2147483647)),
    (Xid(2147483650), Xid(3), Some(false), Some(2147483649)),
    (Xid(3), Xid(3), Some(false), Some(0)),
    (Xid::FROZEN, Xid(3), None, None),
];

static NEXT: [(Xid, Option<Xid>); 3] = [
    (Xid(4294967295), Some(Xid(3))),
    (Xid(3), Some(Xid(4))),
    (Xid::FROZEN, None),
];

#[test]
fn ids_go_round(rt: HostRuntime) {
    for (a, b, before, far) in &PAIRS {
        assert!(rt;
            is_before(*a, *b) == *before && ahead(*a, *b) == *far,
            "{a:?} and {b:?}"
        );
    }
    for (a, told) in &NEXT {
        assert!(rt; after(*a) == *told, "{a:?}");
    }
}
