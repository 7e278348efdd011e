//! Transaction ids and places in a table.
//!
//! A transaction id is a number of 32 bits. Ids are given one after another, and after the last number the next is 3
//! again. So they stand on a circle and have no order as plain numbers (PostgreSQL manual, Routine Vacuuming, "Preventing
//! Transaction ID Wraparound Failures"). The contract promises that [`precedes`], [`next`] and [`distance`] are what
//! `specs/Circle.antt` defines. By [`order_of_giving`] it promises that within less than half of the circle the order of
//! ids is that in which they were given. Whoever compares ids keeps those that are in use within such a window.
//!
//! Why it is built so: docs/DECISIONS.md, under its name.
#![tactic(auto)]

ghost use Rattle.std.specs.Prelude.{◌≡◌, IsTrue, ◌↔◌};
ghost use Rattle.xid_circle.specs.Circle.{distance_of, IsNormal, next_of, Precedes, OrderIsThatOfGiving};

/// A transaction id. 0, 1 and 2 are no ids of transactions; all others are normal. The default is 0, [`Xid::INVALID`].
#[derive(Clone, Copy, Debug, Default, PartialEq, Eq)]
pub struct Xid(pub u32);

impl Xid {
    /// No id, as the deleter of a version that nobody deleted.
    pub const INVALID: Xid = Xid(0);
    /// Once meant a row that everybody sees. A mark in the row says so here, and no row has this id.
    pub const FROZEN: Xid = Xid(2);
    /// The first normal id, which also follows the last number.
    pub const FIRST_NORMAL: Xid = Xid(3);

    /// Whether a transaction can have this id: it is 3 or more.
    pub fn is_normal(self) -> bool
        ensures { IsTrue result ↔ IsNormal self.0 }
    {
        self.0 >= Xid::FIRST_NORMAL.0
    }
}

/// The place of a version in the table.
#[derive(Clone, Copy, Debug, Default, PartialEq, Eq)]
pub struct Tid {
    /// The number of the page, counted from 0.
    pub page: u32,
    /// The number of the slot on that page, counted from 1.
    pub slot: u16,
}

/// Whether `a` stands before `b` on the circle: `a - b`, modulo 2^32 and read as signed, is negative. That is said of any two
/// numbers, be they normal ids or not.
pub fn precedes(a: Xid, b: Xid) -> bool
    ensures { IsTrue result ↔ Precedes a.0 b.0 }
{
    a.0.wrapping_sub(b.0).cast_signed() < 0
}

/// The id that is given after the normal id `a`: 3 after 4294967295, else one more.
pub fn next(a: Xid) -> Xid
    requires { IsNormal a.0 }
    ensures value { result.0 ≡ next_of a.0 }
    ensures normal { IsNormal result.0 }
{
    if a.0 == u32::MAX {
        Xid::FIRST_NORMAL
    } else {
        Xid(a.0 + 1)
    }
}

/// How many numbers `to` lies above `from`, going round: `to - from` modulo 2^32, so the numbers 0, 1 and 2, which are
/// never given, count too. Both ids are normal.
pub fn distance(from: Xid, to: Xid) -> u32
    requires normal { IsNormal from.0 }
    requires normal_too { IsNormal to.0 }
    ensures { result ≡ distance_of from.0 to.0 }
{
    to.0.wrapping_sub(from.0)
}

/// The law of the circle is of ids that are given after one id, less than once round and less than 2^31 away from it. Of
/// two of them that precedes which was given first. It does nothing; its contract is the law.
pub fn order_of_giving()
    ensures { OrderIsThatOfGiving }
{}
