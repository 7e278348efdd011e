//! Entries and their order.

ghost use Rattle.std.specs.Prelude.{◌≡◌, ◌↔◌, IsTrue};
ghost use Rattle.std.specs.Ordering.{is_lt};
ghost use Rattle.index_entries.specs.Order.{comparison, MembersDetermine};

use dead_places::compare_places;
use std::cmp::Ordering;
use xid_circle::Tid;

/// An entry of an index. The value is that of the indexed column, or the key itself in the primary index; so it holds any
/// `i64` and any `u64`.
#[derive(Clone, Copy, Debug, PartialEq, Eq)]
pub struct Entry {
    /// Orders the entries first.
    pub value: i128,
    /// Of the row that the entry is for; orders those of one value.
    pub key: u64,
    /// The place of the root that the entry leads to.
    pub tid: Tid,
}

/// How two entries compare: by value, then key, then page, then slot.
pub fn compare(a: &Entry, b: &Entry) -> Ordering
    ensures { result ≡ comparison a.now b.now }
{
    // most are told apart by their values, and then nothing else is looked at
    if a.value != b.value {
        return a.value.cmp(&b.value);
    }
    if a.key != b.key {
        return a.key.cmp(&b.key);
    }
    compare_places(&a.tid, &b.tid)
}

/// Whether an entry comes before another.
pub fn is_before(a: &Entry, b: &Entry) -> bool
    ensures { result ≡ is_lt (comparison a.now b.now) }
{
    // most are told apart by their values, and many by the first test
    if a.value < b.value {
        return true;
    }
    if b.value < a.value {
        return false;
    }
    compare(a, b).is_lt()
}

/// Whether two entries are the same. (It says of two entries what [`compare`] says of their order.)
#[inline(always)]
pub fn is_same(a: &Entry, b: &Entry) -> bool
    ensures { IsTrue result ↔ a.now ≡ b.now }
{
    compare(a, b).is_eq()
}

/// The law of ordered sets: two ascending lists with the same entries are the same list. It does nothing; its contract is
/// the law.
pub fn members_determine()
    ensures { MembersDetermine }
{}
