//! Pointers lead higher once the versions that they lead to were moved up.

ghost use Rattle.std.specs.Prelude.{◌≡◌, ◌≤◌, ◌<◌, ◌+◌, ◌*◌, ◌^◌, length};
ghost use Rattle.tuple_header.specs.Layout.{with_number};
ghost use Rattle.page_layout.specs.declared.sizes.TheConstants.{PAGE_HEADER_BYTES};
ghost use Rattle.page_layout.specs.Layout.{IsPointed, pointer_in, word_of};
ghost use Rattle.page_layout.specs.Sound.{HasPlainWord};
ghost use Rattle.page_layout.specs.Raising.{AreRaisable, end_in, IsRaised, moved_up};

use crate::numbers::{put_u32, u32_at};
use crate::sizes::PAGE_HEADER_BYTES;

/// Where the version of a pointer's word ends, rounded up, and 32768. The low 17 bits of the word are the version's place and
/// 32768. The 15 others are its length, which the second term rounds up.
#[inline(always)]
pub fn end_in(word: u32) -> u32
    requires { word + 7 * 131072 < 2 ^ 32 }
    ensures { result ≡ end_in word }
{
    word % 131072 + (word + 7 * 131072) / (8 * 131072) * 8
}

/// Lets the pointer at an index lead so much higher, if it leads to a version.
#[inline(always)]
fn raise_pointer(bytes: &mut [u8], index: usize, by: u32)
    requires room { PAGE_HEADER_BYTES + 4 * (index + 1) ≤ length bytes.old }
    requires plain { HasPlainWord bytes.old index }
    requires fits { IsPointed (moved_up by (pointer_in bytes.old index)) }
    ensures { bytes.new ≡ with_number (PAGE_HEADER_BYTES + 4 * index) 4
        (word_of (moved_up by (pointer_in bytes.old index))) bytes.old }
{
    let at = PAGE_HEADER_BYTES + 4 * index;
    let word = u32_at(bytes, at);
    put_u32(
        bytes,
        at,
        if word / 32768 % 4 == 1 {
            word + by
        } else {
            word
        },
    );
}

/// Lets the pointers from one index to before another lead so much higher, where they lead to versions.
pub fn raise_pointers(bytes: &mut [u8], first: usize, count: usize, by: u32)
    requires room { PAGE_HEADER_BYTES + 4 * count ≤ length bytes.old }
    requires within { first ≤ count }
    requires raisable { AreRaisable bytes.old first count by }
    ensures { IsRaised bytes.old bytes.new first count by }
{
    for index in first..count {
        raise_pointer(bytes, index, by);
    }
}
