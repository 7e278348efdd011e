//! Some of the bytes of a page: they are read where they stand, written, or moved up.

ghost use Rattle.std.specs.Prelude.{◌≡◌, ◌≤◌, ◌+◌, ◌-◌, length, take, drop};
ghost use Rattle.tuple_header.specs.Layout.{with_bytes};
ghost use Rattle.page_layout.specs.declared.sizes.TheConstants.{PAGE_BYTES};
ghost use Rattle.page_layout.specs.Layout.{part_of};

use crate::pointer::Extent;
use crate::sizes::PAGE_BYTES;

/// The bytes of a version.
#[inline(always)]
pub fn part(bytes: &[u8], extent: Extent) -> &[u8]
    requires { extent.from + extent.len ≤ length bytes.now }
    ensures { result.now ≡ part_of bytes.now extent }
{
    let from = usize::from(extent.from);
    &bytes[from..from + usize::from(extent.len)]
}

/// Writes some bytes from a place on.
#[tactic(auto, unfolding(tuple_header::specs::Layout::with_bytes))]
pub fn put_bytes(out: &mut [u8], at: usize, bytes: &[u8])
    requires { at + length bytes.now ≤ length out.old }
    ensures { out.new ≡ with_bytes at bytes.now out.old }
{
    out[at..at + bytes.len()].copy_from_slice(bytes);
}

/// Moves the bytes from one place to before another so much higher.
pub fn slide(bytes: &mut [u8], low: usize, top: usize, by: usize)
    requires whole { length bytes.old ≡ PAGE_BYTES }
    requires order { low ≤ top }
    requires room { top + by ≤ PAGE_BYTES }
    ensures { bytes.new
        ≡ with_bytes (low + by) (take (top - low) (drop low bytes.old)) bytes.old }
{
    let mut block = [0; PAGE_BYTES];
    put_bytes(&mut block, 0, &bytes[low..top]);
    put_bytes(bytes, low + by, &block[..top - low]);
}
