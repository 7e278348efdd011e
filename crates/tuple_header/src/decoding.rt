//! A version from its bytes. The numbers are byteorder's, which speaks of the front of a slice: here a number is at a place.

ghost use Rattle.std.specs.Prelude.{◌≡◌, ◌≤◌, ◌+◌, length, Some, None, IfOk};
ghost use Rattle.tuple_header.specs.Layout.{number_at, decoded_version, decoded_header, column_at, columns_at, decoded_row, encoding};
ghost use Rattle.tuple_header.specs.Faults.{header_fault, layout_fault, first_fault, decoding};
ghost use Rattle.tuple_header.specs.declared.version.TheConstants.{BODY_START};

use crate::{BODY_START, COLUMNS, Header, MOST_BODY, MOST_SLOTS, Row, RowRef, Tuple, TupleFault};
use arrayvec::ArrayVec;
use byteorder::{ByteOrder, LittleEndian};
use xid_circle::{Tid, Xid};

/// The header that stands in the first 24 of these bytes, read where it is.
#[inline(always)]
#[tactic(auto, unfolding(crate::specs::Layout::number_at))]
pub fn header_of(bytes: &[u8]) -> Header
    requires { 24 ≤ length bytes.now }
    ensures { result ≡ decoded_header bytes.now }
{
    let page_high = LittleEndian::read_u16(&bytes[12..]);
    let page_low = LittleEndian::read_u16(&bytes[14..]);
    Header {
        xmin: Xid(LittleEndian::read_u32(bytes)),
        xmax: Xid(LittleEndian::read_u32(&bytes[4..])),
        ctid: Tid {
            page: u32::from(page_high) * 65536 + u32::from(page_low),
            slot: LittleEndian::read_u16(&bytes[16..]),
        },
        mask2: LittleEndian::read_u16(&bytes[18..]),
        mask: LittleEndian::read_u16(&bytes[20..]),
    }
}

/// The key that stands in these bytes of a version, read where it is.
#[inline(always)]
#[tactic(auto, unfolding(crate::specs::Layout::number_at))]
pub fn key_of(bytes: &[u8]) -> u64
    requires { 32 ≤ length bytes.now }
    ensures { result ≡ number_at 24 8 bytes.now }
{
    LittleEndian::read_u64(&bytes[24..])
}

/// The row that stands in these bytes of a version, where it is. Its body is copied nowhere.
pub fn row_in(bytes: &[u8]) -> RowRef<'_>
    requires from { BODY_START ≤ length bytes.now }
    requires to { length bytes.now ≤ 1090 }
    ensures { result ≡ decoded_row bytes.now }
{
    RowRef::new(key_of(bytes), columns_of(bytes), &bytes[BODY_START..])
}

fn body_of(bytes: &[u8]) -> ArrayVec<u8, MOST_BODY>
    requires { length bytes.now ≤ MOST_BODY }
    ensures { result ≡ record { items = bytes.now } }
{
    let mut body = ArrayVec::new();
    let _ = body.try_extend_from_slice(bytes);
    body
}

#[tactic(auto, unfolding(crate::specs::Layout::number_at))]
fn column_of(bytes: &[u8], at: usize) -> i64
    requires { at + 8 ≤ length bytes.now }
    ensures { result ≡ column_at at bytes.now }
{
    LittleEndian::read_i64(&bytes[at..])
}

fn columns_of(bytes: &[u8]) -> [i64; COLUMNS]
    requires { BODY_START ≤ length bytes.now }
    ensures { result ≡ columns_at bytes.now }
{
    [
        column_of(bytes, 32),
        column_of(bytes, 40),
        column_of(bytes, 48),
        column_of(bytes, 56),
    ]
}

#[tactic(auto, unfolding(crate::specs::Layout::number_at))]
fn row_of(bytes: &[u8]) -> Row
    requires from { BODY_START ≤ length bytes.now }
    requires to { length bytes.now ≤ 1090 }
    ensures { result ≡ decoded_row bytes.now }
{
    let body = body_of(&bytes[BODY_START..]);
    Row {
        key: LittleEndian::read_u64(&bytes[24..]),
        cols: columns_of(bytes),
        body,
    }
}

/// The bits of `mask2` that hold the number of attributes.
const ATTRIBUTE_BITS: u16 = 0x07ff;
/// The bits of `mask2` that hold nothing.
const OTHER_BITS_2: u16 = 0x3800;
/// The bits of `mask` that hold nothing.
const OTHER_BITS: u16 = 0xd0ff;

/// The first fault of a header, in this order: `Attributes`, `Masks`, `Xmin`, `Xmax`, `Ctid`.
pub fn fault_of(header: &Header) -> Option<TupleFault>
    ensures { result ≡ header_fault header.now }
{
    if header.mask2 & ATTRIBUTE_BITS != Header::ATTRIBUTES {
        Some(TupleFault::Attributes)
    } else if header.mask2 & OTHER_BITS_2 != 0
        || header.mask & OTHER_BITS != 0
        || (header.mask & Header::XMAX_COMMITTED != 0 && header.mask & Header::XMAX_INVALID != 0)
    {
        Some(TupleFault::Masks)
    } else if header.xmin.0 < 3 {
        Some(TupleFault::Xmin)
    } else if header.xmax.0 == 1
        || header.xmax.0 == 2
        || (header.xmax.0 == 0
            && (header.mask & Header::XMAX_INVALID == 0 || header.is_hot_updated()))
    {
        Some(TupleFault::Xmax)
    } else if header.ctid.slot == 0 || header.ctid.slot > MOST_SLOTS {
        Some(TupleFault::Ctid)
    } else {
        None
    }
}

/// The first fault of the bytes that is found before their header is looked at: `Length`, `Hoff`, `Cid` or `Padding`.
#[tactic(auto, unfolding(crate::specs::Layout::number_at))]
fn layout_fault_of(bytes: &[u8]) -> Option<TupleFault>
    ensures { result ≡ layout_fault bytes.now }
{
    if bytes.len() < BODY_START {
        return Some(TupleFault::Length);
    }
    let body_len = usize::from(LittleEndian::read_u16(&bytes[64..]));
    if body_len > MOST_BODY || bytes.len() != BODY_START + body_len {
        Some(TupleFault::Length)
    } else if bytes[22] != 24 {
        Some(TupleFault::Hoff)
    } else if LittleEndian::read_u32(&bytes[8..]) != 0 {
        Some(TupleFault::Cid)
    } else if bytes[23] != 0 {
        Some(TupleFault::Padding)
    } else {
        None
    }
}

/// Reads a version from its bytes, and takes no bytes but those that [`encode`](crate::encode) writes. The error is the
/// first fault of the bytes, in the order of [`TupleFault`].
pub fn decode(bytes: &[u8]) -> Result<Tuple, TupleFault>
    ensures value { result ≡ decoding bytes.now }
    ensures spelled { IfOk result (λ t. bytes.now ≡ encoding t) }
{
    if let Some(fault) = layout_fault_of(bytes) {
        return Err(fault);
    }
    let header = header_of(bytes);
    if let Some(fault) = fault_of(&header) {
        return Err(fault);
    }
    let row = row_of(bytes);
    Ok(Tuple { header, row })
}

/// The version that stands in these bytes, which have no fault.
pub fn version_of(bytes: &[u8]) -> Tuple
    requires { first_fault bytes.now ≡ None }
    ensures { result ≡ decoded_version bytes.now }
{
    Tuple {
        header: header_of(bytes),
        row: row_of(bytes),
    }
}
