//! Rows and their versions.

ghost use Rattle.std.specs.Prelude.{◌≡◌, ◌≤◌, ◌+◌, length, None};
ghost use Rattle.std.specs.Prelude.{FitsSigned, slice_index_or, pos};
ghost use Rattle.std.specs.Int.{w64};
ghost use Rattle.tuple_header.specs.Version.{rounded_size_of};
ghost use Rattle.tuple_header.specs.Faults.{header_fault, HeaderFits, IsVersion};
ghost use Rattle.tuple_header.specs.Marks.{is_hot_updated, is_heap_only, is_frozen, inserted_header};

use arrayvec::ArrayVec;
use std::marker::Model;
use xid_circle::{Tid, Xid};

/// A row of the table.
#[derive(Debug, Drop, PartialEq, Eq)]
pub struct Row {
    /// Its key.
    pub key: u64,
    /// Its columns.
    pub cols: [i64; COLUMNS],
    /// Its body, of at most 1024 bytes.
    pub body: ArrayVec<u8, MOST_BODY>,
}

impl Row {
    /// An equal row. It takes no memory.
    pub fn copy(&self) -> Row
        ensures { result ≡ self.now }
    {
        let mut body = ArrayVec::new();
        let _ = body.try_extend_from_slice(self.body.as_slice());
        Row {
            key: self.key,
            cols: self.cols,
            body,
        }
    }
}

/// How many columns a row has.
pub const COLUMNS: usize = 4;

/// Where the body of a version begins: behind its header of 24 bytes, the key, the columns, and the length of the body.
pub const BODY_START: usize = 34 + 8 * COLUMNS;

/// How many bytes the body of a row may have.
pub const MOST_BODY: usize = 1024;

/// How many slots a page may have, and so the highest number of one (PostgreSQL, `MaxHeapTuplesPerPage`).
pub const MOST_SLOTS: u16 = 291;

/// How many numbers an array by slot number has: from 0, which no slot has, to the highest.
pub const MOST_SLOT_NUMBERS: usize = 292;

/// What a version says of its life: who made it, who took it away, and where its successor is (PostgreSQL manual,
/// Database Page Layout, HeapTupleHeaderData).
#[derive(Clone, Copy, Debug, PartialEq, Eq)]
pub struct Header {
    /// Who made it.
    pub xmin: Xid,
    /// Who took it away, or 0.
    pub xmax: Xid,
    /// Where its successor is, or its own place.
    pub ctid: Tid,
    /// The number of attributes in the low 11 bits, and the marks of a chain.
    pub mask2: u16,
    /// The marks of both ids.
    pub mask: u16,
}

impl Header {
    /// In `mask2`: an update put the successor on the same page, with no index entry of its own.
    pub const HOT_UPDATED: u16 = 0x4000;
    /// In `mask2`: it is such a successor.
    pub const HEAP_ONLY: u16 = 0x8000;
    /// In `mask`, and without `XMIN_INVALID` a hint: the inserter is committed.
    pub const XMIN_COMMITTED: u16 = 0x0100;
    /// In `mask`, and without `XMIN_COMMITTED` a hint: the inserter is aborted.
    pub const XMIN_INVALID: u16 = 0x0200;
    /// In `mask`, both marks of the inserter: it is committed for everybody, whatever its number.
    pub const XMIN_FROZEN: u16 = 0x0300;
    /// In `mask`, a hint: the deleter is committed.
    pub const XMAX_COMMITTED: u16 = 0x0400;
    /// In `mask`: there is no deleter, or, beside an `xmax` other than 0, a hint that it is aborted.
    pub const XMAX_INVALID: u16 = 0x0800;
    /// In `mask`: the version was made by an update.
    pub const UPDATED: u16 = 0x2000;
    /// The number of attributes of every row: its key, four columns and a body.
    pub const ATTRIBUTES: u16 = 6;

    /// The header of a version that `xmin`, a normal id, has just made at the place `ctid`. The slot of `ctid` is from 1
    /// to 291. Nobody has deleted the version, and no mark but `XMAX_INVALID` is set.
    pub fn new(xmin: Xid, ctid: Tid) -> Header
        requires normal { 3 ≤ xmin.0 }
        requires from { 1 ≤ ctid.slot }
        requires to { ctid.slot ≤ MOST_SLOTS }
        ensures value { result ≡ inserted_header xmin.0 ctid.page ctid.slot }
        ensures faultless { header_fault result ≡ None }
    {
        Header {
            xmin,
            xmax: Xid::INVALID,
            ctid,
            mask2: Header::ATTRIBUTES,
            mask: Header::XMAX_INVALID,
        }
    }

    /// Whether an update put the successor on the same page, with no index entry of its own.
    pub fn is_hot_updated(&self) -> bool
        ensures { result ≡ is_hot_updated self.now }
    {
        self.mask2 & Header::HOT_UPDATED != 0
    }

    /// Whether it is such a successor.
    pub fn is_heap_only(&self) -> bool
        ensures { result ≡ is_heap_only self.now }
    {
        self.mask2 & Header::HEAP_ONLY != 0
    }

    /// Whether the inserter is marked as committed for everybody.
    pub fn is_frozen(&self) -> bool
        ensures { result ≡ is_frozen self.now }
    {
        self.mask & Header::XMIN_FROZEN == Header::XMIN_FROZEN
    }
}

/// A version of a row. Its header has no fault: [`fault_of`](crate::fault_of) finds none in it.
#[derive(Debug, Drop, PartialEq, Eq)]
pub struct Tuple {
    /// What the version says of its life.
    pub header: Header,
    /// The row, as this version has it.
    pub row: Row,
}

impl Model for Tuple {
    ghost use Rattle.std.specs.Prelude.{◌≡◌, None};
    ghost use Rattle.tuple_header.specs.Version.{Version};

    ghost Value = { Version };

    ghost use Rattle.tuple_header.specs.Faults.{header_fault};

    ghost view = { λ t. record { header = t.header; row = t.row } };

    ghost invariant = { λ t. header_fault t.header ≡ None };

    ghost inverse = { λ v. record { header = v.header; row = v.row } };
}

impl Tuple {
    /// That the values of the program are such as are read back from their bytes.
    pub fn is_version(&self)
        ensures { IsVersion self.now }
    {
        fact_version(&self.header, &self.row);
    }

    /// An equal version. It takes no memory.
    pub fn copy(&self) -> Tuple
        ensures { result ≡ self.now }
    {
        Tuple {
            header: self.header,
            row: self.row.copy(),
        }
    }
}

/// That the numbers of a header fit their fields. It does nothing; its contract is the fact.
pub(crate) fn fact_header_fits(header: &Header)
    ensures { HeaderFits header.now }
{
    let _xmin = header.xmin.0;
    let _xmax = header.xmax.0;
    let _page = header.ctid.page;
    let _slot = header.ctid.slot;
    let _mask2 = header.mask2;
    let _mask = header.mask;
}

/// That a header without a fault and a row are such as are read back from their bytes. It does nothing.
pub(crate) fn fact_version(header: &Header, row: &Row)
    requires { header_fault header.now ≡ None }
    ensures { IsVersion (record { header = header.now; row = row.now }) }
{
    fact_header_fits(header);
    let _key = row.key;
    let _cols = fact_columns(&row.cols);
    let _body = row.body.as_slice();
}

/// That an array of columns has four. It does nothing.
pub(crate) fn fact_columns(cols: &[i64; COLUMNS])
    ensures four { length cols.now ≡ 4 }
    ensures fit_0 { FitsSigned w64 (slice_index_or cols.now 0 (pos 0)) }
    ensures fit_1 { FitsSigned w64 (slice_index_or cols.now 1 (pos 0)) }
    ensures fit_2 { FitsSigned w64 (slice_index_or cols.now 2 (pos 0)) }
    ensures fit_3 { FitsSigned w64 (slice_index_or cols.now 3 (pos 0)) }
{
    let _first = cols[0];
    let _second = cols[1];
    let _third = cols[2];
    let _fourth = cols[3];
}

/// How many bytes a version of the row takes on a page: 66 and its body, rounded up to a multiple of 8. It is at most 1096.
pub fn row_size(row: &Row) -> usize
    ensures value { result ≡ rounded_size_of row.now }
    ensures limit { result ≤ 1096 }
{
    (BODY_START + row.body.len()).next_multiple_of(8)
}

/// How many bytes a version takes on a page: those of its row. (It is for who has a version whole.)
pub fn size(t: &Tuple) -> usize
    ensures { result ≡ rounded_size_of t.now.row }
{
    row_size(&t.row)
}
