//! The picture of a table.

ghost use Rattle.std.specs.Prelude.{◌≡◌};
ghost use Rattle.c_views.specs.Pictures.{status_of_picture_fault, ShowsText, ShowsPicture};

use c_handles::CallStatus;
use page_layout::put_bytes;
use session_core::{Engine, Refusal};
use shapes::{PictureFault, draw_asked};
use std::alloc::Global;

/// The status of why there is no picture.
fn status_of(fault: PictureFault) -> CallStatus
    ensures { result ≡ status_of_picture_fault fault }
{
    match fault {
        PictureFault::TooManyPages => CallStatus::TooManyPages,
        PictureFault::NoSuchPage(_) => CallStatus::Refused(Refusal::NoSuchPage),
        PictureFault::NoMemory => CallStatus::Refused(Refusal::NoMemory),
    }
}

/// Writes a text to the first of C's places, if they are enough.
fn put_text(text: &[u8], places: &mut [u8]) -> u32
    ensures { ShowsText text.now places.old result places.new }
{
    if places.len() < text.len() {
        return CallStatus::NoPlace.number();
    }
    put_bytes(places, 0, text);
    CallStatus::Found.number()
}

/// Writes the picture of the pages of these numbers, or of all where there is none, to the first of C's places, if they are enough. It has
/// `length` bytes.
pub fn show_picture(
    engine: &mut Engine,
    alloc: Global,
    pages: &[u32],
    places: &mut [u8],
    length: &mut usize,
) -> u32
    ensures same { engine.new ≡ engine.old }
    ensures picture { ShowsPicture engine.old pages.now places.old result places.new length.new }
{
    let mut text = Vec::new(alloc);
    match draw_asked(engine, alloc, pages, &mut text) {
        Ok(()) => {
            *length = text.len();
            put_text(text.as_slice(), places)
        }
        Err(fault) => {
            *length = 0;
            status_of(fault).number()
        }
    }
}
