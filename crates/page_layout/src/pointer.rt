//! Line pointers.

ghost use Rattle.std.specs.Prelude.{◌≡◌, ◌≤◌, ◌<◌, ◌+◌, ◌*◌, ◌^◌, length};
ghost use Rattle.tuple_header.specs.Layout.{number_at, with_number};
ghost use Rattle.page_layout.specs.declared.sizes.TheConstants.{PAGE_HEADER_BYTES};
ghost use Rattle.page_layout.specs.Layout.{pointer_of, pointer_in, word_of, IsPointed};

use crate::sizes::PAGE_HEADER_BYTES;
use byteorder::{ByteOrder, LittleEndian};

/// Where a version stands among the bytes of its page.
#[derive(Clone, Copy, Debug)]
pub struct Extent {
    pub from: u16,
    pub len: u16,
}

/// What a line pointer says of its slot.
#[derive(Clone, Copy, Debug)]
pub enum Pointer {
    Unused,
    Normal(Extent),
    Redirect(u16),
    Dead,
}

impl Pointer {
    /// The pointer of this word.
    #[inline(always)]
    pub(crate) fn of(word: u32) -> Pointer
        ensures { result ≡ pointer_of word }
    {
        let offset = (word % 32768) as u16;
        let kind = word / 32768 % 4;
        if kind == 1 {
            Pointer::Normal(Extent {
                from: offset,
                len: (word / 131072) as u16,
            })
        } else if kind == 2 {
            Pointer::Redirect(offset)
        } else if kind == 3 {
            Pointer::Dead
        } else {
            Pointer::Unused
        }
    }

    /// Its word.
    fn word(self) -> u32
        requires { IsPointed self }
        ensures { result ≡ word_of self }
    {
        match self {
            Pointer::Unused => 0,
            Pointer::Normal(extent) => {
                u32::from(extent.from) + 32768 + u32::from(extent.len) * 131072
            }
            Pointer::Redirect(target) => u32::from(target) + 65536,
            Pointer::Dead => 98304,
        }
    }
}

/// The pointer at an index, the first being 0.
#[inline(always)]
pub fn pointer_at(bytes: &[u8], index: usize) -> Pointer
    requires { PAGE_HEADER_BYTES + 4 * (index + 1) ≤ length bytes.now }
    ensures { result ≡ pointer_in bytes.now index }
{
    Pointer::of(LittleEndian::read_u32(&bytes[PAGE_HEADER_BYTES + 4 * index..]))
}

/// Writes the pointer at an index.
pub fn put_pointer(bytes: &mut [u8], index: usize, pointer: Pointer)
    requires room { PAGE_HEADER_BYTES + 4 * (index + 1) ≤ length bytes.old }
    requires pointed { IsPointed pointer }
    ensures { bytes.new
        ≡ with_number (PAGE_HEADER_BYTES + 4 * index) 4 (word_of pointer) bytes.old }
{
    LittleEndian::write_u32(&mut bytes[PAGE_HEADER_BYTES + 4 * index..], pointer.word());
}
