//! Places in four bytes.

ghost use Rattle.std.specs.Prelude.{◌≡◌, ◌<◌};
ghost use Rattle.entry_columns.specs.Columns.{long};

use xid_circle::Tid;

/// So many pages are told apart.
pub const PAGES: u32 = 65_536;

/// The place of a version on one of these pages.
#[derive(Clone, Copy, Debug)]
pub(crate) struct ShortTid {
    /// The page, and then the slot in 16 bits: so numbers have the order of places.
    number: u32,
}

impl ShortTid {
    /// This place.
    #[inline(always)]
    pub(crate) fn new(tid: Tid) -> Self
        requires { tid.page < PAGES }
        ensures { long result ≡ tid }
    {
        let slot = tid.slot;
        ShortTid {
            number: tid.page * PAGES + u32::from(slot),
        }
    }

    /// The place of this number.
    #[inline(always)]
    pub(crate) fn of_number(number: u32) -> Self
        ensures { result.number ≡ number }
    {
        ShortTid { number }
    }

    /// Its number.
    #[inline(always)]
    pub(crate) fn number(self) -> u32
        ensures { result ≡ self.number }
    {
        self.number
    }

    /// This place as others have it.
    #[inline(always)]
    pub(crate) fn long(self) -> Tid
        ensures { result ≡ long self }
    {
        Tid {
            page: self.number / PAGES,
            slot: (self.number % PAGES) as u16,
        }
    }
}
