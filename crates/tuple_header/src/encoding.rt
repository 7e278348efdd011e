//! The bytes of a version. The numbers are byteorder's, which speaks of the front of a slice: here a number is at a place. A byte is written
//! as a slice of one, and a signed number as the unsigned one of the same bits.

ghost use Rattle.std.specs.Prelude.{◌≡◌, ◌≤◌, ◌+◌, ◌++◌, [], ◌∷◌, map, drop, length, None};
ghost use Rattle.std.specs.Int.{w64, cast_unsigned};
ghost use Rattle.tuple_header.specs.Version.{size_of};
ghost use Rattle.tuple_header.specs.Layout.{with_bytes, with_number, with_numbers, header_widths, header_values, header_bytes, encoding};
ghost use Rattle.tuple_header.specs.Faults.{header_fault, HeaderFits, IsVersion, ReadsBack};
ghost use Rattle.tuple_header.specs.declared.version.TheConstants.{BODY_START};

use crate::version::{fact_columns, fact_header_fits, fact_version};
use crate::{BODY_START, COLUMNS, Header, Row, Tuple};
use byteorder::{ByteOrder, LittleEndian};

fn put_u8(out: &mut [u8], at: usize, n: u8)
    requires { at + 1 ≤ length out.old }
    ensures { out.new ≡ with_number at 1 n out.old }
{
    put_bytes(out, at, &[n]);
}

fn put_u16(out: &mut [u8], at: usize, n: u16)
    requires { at + 2 ≤ length out.old }
    ensures { out.new ≡ with_number at 2 n out.old }
{
    LittleEndian::write_u16(&mut out[at..], n);
}

fn put_u32(out: &mut [u8], at: usize, n: u32)
    requires { at + 4 ≤ length out.old }
    ensures { out.new ≡ with_number at 4 n out.old }
{
    LittleEndian::write_u32(&mut out[at..], n);
}

fn put_u64(out: &mut [u8], at: usize, n: u64)
    requires { at + 8 ≤ length out.old }
    ensures { out.new ≡ with_number at 8 n out.old }
{
    LittleEndian::write_u64(&mut out[at..], n);
}

fn put_i64(out: &mut [u8], at: usize, n: i64)
    requires { at + 8 ≤ length out.old }
    ensures { out.new ≡ with_number at 8 (cast_unsigned w64 n) out.old }
{
    put_u64(out, at, n.cast_unsigned());
}

#[tactic(auto, unfolding(crate::specs::Layout::with_bytes))]
fn put_bytes(out: &mut [u8], at: usize, bytes: &[u8])
    requires { at + length bytes.now ≤ length out.old }
    ensures { out.new ≡ with_bytes at bytes.now out.old }
{
    out[at..at + bytes.len()].copy_from_slice(bytes);
}

// Writes a header's fields over the first 24 of these bytes.
fn put_fields(header: &Header, out: &mut [u8])
    requires { 24 ≤ length out.old }
    ensures { out.new ≡ with_numbers 0 header_widths (header_values header.now) out.old }
{
    put_u32(out, 0, header.xmin.0);
    put_u32(out, 4, header.xmax.0);
    put_u32(out, 8, 0);
    put_u16(out, 12, (header.ctid.page / 65536) as u16);
    put_u16(out, 14, (header.ctid.page % 65536) as u16);
    put_u16(out, 16, header.ctid.slot);
    put_u16(out, 18, header.mask2);
    put_u16(out, 20, header.mask);
    put_u8(out, 22, 24);
    put_u8(out, 23, 0);
}

/// Writes a header over the first 24 of these bytes. What follows stays. Its contract names the bytes, that of `put_fields` the fields.
pub fn put_header(header: &Header, out: &mut [u8])
    requires { 24 ≤ length out.old }
    ensures bytes { out.new ≡ header_bytes header.now ++ drop 24 out.old }
    ensures fits { HeaderFits header.now }
{
    fact_header_fits(header);
    put_fields(header, out);
}

// Writes the columns of a row.
fn put_columns(cols: &[i64; COLUMNS], out: &mut [u8])
    requires { BODY_START ≤ length out.old }
    ensures { out.new
        ≡ with_numbers 32 (8 ∷ 8 ∷ 8 ∷ 8 ∷ []) (map (cast_unsigned w64) cols.now) out.old }
{
    fact_columns(cols);
    put_i64(out, 32, cols[0]);
    put_i64(out, 40, cols[1]);
    put_i64(out, 48, cols[2]);
    put_i64(out, 56, cols[3]);
}

/// Writes the bytes of a version of this row with this header, 66 and its body, at the front of `out`. What follows stays.
/// The header has no fault, and `out` has room for the bytes.
pub fn put_version(header: &Header, row: &Row, out: &mut [u8])
    requires room { size_of row.now ≤ length out.old }
    requires faultless { header_fault header.now ≡ None }
    ensures bytes { out.new
        ≡ encoding (record { header = header.now; row = row.now })
        ++ drop (size_of row.now) out.old }
    ensures version { IsVersion (record { header = header.now; row = row.now }) }
{
    fact_version(header, row);
    let body = row.body.as_slice();
    put_fields(header, out);
    put_u64(out, 24, row.key);
    put_columns(&row.cols, out);
    put_u16(out, 64, body.len() as u16);
    put_bytes(out, BODY_START, body);
}

/// Writes a version's bytes, 66 and its body, at the front of `out`, which has room for them. What follows stays.
/// (It is for who has a version whole. A page has the header and the row apart.)
pub fn encode(t: &Tuple, out: &mut [u8])
    requires { size_of t.now.row ≤ length out.old }
    ensures { out.new ≡ encoding t.now ++ drop (size_of t.now.row) out.old }
{
    put_version(&t.header, &t.row, out);
}

/// The law of the bytes: each version is read from its own bytes. It does nothing; its contract is the law.
pub fn reads_back()
    ensures { ReadsBack }
{}
