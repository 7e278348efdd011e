//! The picture of a table.

ghost use Rattle.std.specs.Prelude.{◌≡◌};
ghost use Rattle.sandpiper_c.specs.Calls.{StaysAsIs};
ghost use Rattle.sandpiper_c.specs.Pictures.{PictureOf};

use c_handles::{CallStatus, Sandpiper};
use c_views::show_picture;
use std::alloc::Global;

/// Writes the picture of the pages of these numbers, counted from 0, to the first of C's own bytes, if they are enough. Where there is no
/// number, it is of all pages. To `length` it writes how many bytes the picture has.
#[unsafe(no_mangle)]
pub extern "C" fn sandpiper_draw(
    alloc: Global,
    table: &mut Sandpiper,
    pages: &[u32],
    text: &mut [u8],
    length: &mut usize,
) -> u32
    ensures stays { StaysAsIs table.old table.new }
    ensures picture { PictureOf table.old pages.now text.old result text.new length.new }
{
    match table.take(alloc) {
        Some(mut held) => {
            let code = show_picture(&mut held.engine, alloc, pages, text, length);
            table.put(held);
            code
        }
        None => {
            *length = 0;
            CallStatus::NoEngine.number()
        }
    }
}
