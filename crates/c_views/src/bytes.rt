//! The bytes of a page.

ghost use Rattle.std.specs.Prelude.{◌≡◌, ◌≤◌, length, Some};
ghost use Rattle.page_layout.specs.declared.sizes.TheConstants.{PAGE_BYTES as PAGE_LENGTH};
ghost use Rattle.c_views.specs.Bytes.{page_numbered, AreBytesOf, ShowsBytes};

use c_handles::CallStatus;
use page_layout::put_bytes;
use page_slots::{PAGE_BYTES, Page};
use session_core::Engine;

/// Writes the bytes of the page to the first of C's places, which are enough. (What the other says of bytes is said here of a page.)
fn put_page(page: &Page, bytes: &mut [u8])
    requires { PAGE_LENGTH ≤ length bytes.old }
    ensures { AreBytesOf page.now bytes.old bytes.new }
{
    put_bytes(bytes, 0, page.bytes());
}

/// The same, if they are enough.
fn put_page_if_enough(page: &Page, bytes: &mut [u8]) -> u32
    ensures { ShowsBytes (Some page.now) bytes.old result bytes.new }
{
    if bytes.len() < PAGE_BYTES {
        return CallStatus::NoPlace.number();
    }
    put_page(page, bytes);
    CallStatus::Found.number()
}

/// Writes the bytes of the page of this number, if it is in use.
pub fn put_page_of(engine: &Engine, number: u32, bytes: &mut [u8]) -> u32
    ensures { ShowsBytes (page_numbered engine.now.engine.core number) bytes.old result bytes.new }
{
    match engine.page(number) {
        Some(page) => put_page_if_enough(page, bytes),
        None => CallStatus::NoRow.number(),
    }
}
