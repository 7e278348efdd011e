//! Numbers among the bytes of a page. They are byteorder's, which speaks of the front of a slice: here a number is at a place.

ghost use Rattle.std.specs.Prelude.{◌≡◌, ◌≤◌, ◌+◌, length};
ghost use Rattle.tuple_header.specs.Layout.{number_at, with_number};

use byteorder::{ByteOrder, LittleEndian};

/// The number in the 2 bytes from a place on.
#[inline(always)]
pub fn u16_at(bytes: &[u8], at: usize) -> u16
    requires { at + 2 ≤ length bytes.now }
    ensures { result ≡ number_at at 2 bytes.now }
{
    LittleEndian::read_u16(&bytes[at..])
}

/// The number in the 4 bytes from a place on.
#[inline(always)]
pub fn u32_at(bytes: &[u8], at: usize) -> u32
    requires { at + 4 ≤ length bytes.now }
    ensures { result ≡ number_at at 4 bytes.now }
{
    LittleEndian::read_u32(&bytes[at..])
}

/// The number in the 8 bytes from a place on.
#[inline(always)]
pub fn u64_at(bytes: &[u8], at: usize) -> u64
    requires { at + 8 ≤ length bytes.now }
    ensures { result ≡ number_at at 8 bytes.now }
{
    LittleEndian::read_u64(&bytes[at..])
}

/// Writes a number over the 2 bytes from a place on.
pub fn put_u16(bytes: &mut [u8], at: usize, n: u16)
    requires { at + 2 ≤ length bytes.old }
    ensures { bytes.new ≡ with_number at 2 n bytes.old }
{
    LittleEndian::write_u16(&mut bytes[at..], n);
}

/// Writes a number over the 4 bytes from a place on.
#[inline(always)]
pub(crate) fn put_u32(bytes: &mut [u8], at: usize, n: u32)
    requires { at + 4 ≤ length bytes.old }
    ensures { bytes.new ≡ with_number at 4 n bytes.old }
{
    LittleEndian::write_u32(&mut bytes[at..], n);
}

/// Writes a number over the 8 bytes from a place on.
pub fn put_u64(bytes: &mut [u8], at: usize, n: u64)
    requires { at + 8 ≤ length bytes.old }
    ensures { bytes.new ≡ with_number at 8 n bytes.old }
{
    LittleEndian::write_u64(&mut bytes[at..], n);
}
