//! Marks of places: 0 where a set has no place of this mark, and else a hint where one of them stands.

ghost use Rattle.std.specs.Prelude.{◌≡◌, ◌<◌, slice_set};
ghost use Rattle.dead_places.specs.Marks.{place_mark};

use xid_circle::Tid;

/// How many marks there are.
pub(crate) const MARKS: usize = 8192;

// A full page of rows without bodies has 107 slots. So on some 72 such pages in a row each place has a mark of its own.
const MARKS_OF_A_PAGE: u64 = 113;

/// The number of a place's mark, by which it is found among all.
#[inline(always)]
pub(crate) fn place_mark(tid: Tid) -> usize
    ensures value { result ≡ place_mark tid }
    ensures limit { result < MARKS }
{
    ((tid.page as u64 * MARKS_OF_A_PAGE + tid.slot as u64) % MARKS as u64) as usize
}

/// Gives a place's mark this hint.
pub(crate) fn note(marks: &mut [u16; MARKS], tid: Tid, hint: u16)
    ensures { marks.new ≡ slice_set marks.old (place_mark tid) hint }
{
    marks[place_mark(tid)] = hint;
}
