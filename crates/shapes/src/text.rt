//! The picture of pages of a table.

ghost use Rattle.std.specs.Prelude.{◌≡◌, ◌≤◌, OnOk, IfErr, IfOk, length};
ghost use Rattle.shapes.specs.Shapes.{IsPictureFault};
ghost use Rattle.shapes.specs.Pictures.{all_pages, pages_asked, AddsText, IsPictureText};

use crate::fault::{MOST_PAGES, PictureFault};
use crate::making::picture;
use script_text::{RefusedGrowth, push_item};
use session_core::Engine;
use std::alloc::Global;
use svg_text::tell_picture;

/// Adds the picture of pages of a table.
fn draw_pages(
    engine: &mut Engine,
    alloc: Global,
    numbers: &[u32],
    out: &mut Vec<u8>,
) -> Result<(), PictureFault>
    ensures same { engine.new ≡ engine.old }
    ensures drawn { OnOk result
        (AddsText (IsPictureText engine.old numbers.now) out.old.items out.new.items) }
    ensures fault { IfErr result (IsPictureFault engine.old.engine.core numbers.now) }
{
    let shapes = match picture(engine, alloc, numbers) {
        Ok(shapes) => shapes,
        Err(fault) => return Err(fault),
    };
    match tell_picture(out, alloc, shapes.as_slice()) {
        Ok(()) => Ok(()),
        Err(_) => Err(PictureFault::NoMemory),
    }
}

/// The numbers of all pages in use.
fn all_numbers(engine: &Engine, alloc: Global) -> Result<Vec<u32>, RefusedGrowth>
    ensures { IfOk result (λ numbers. numbers.items ≡ all_pages engine.now.engine.core) }
{
    let mut numbers = Vec::new(alloc);
    for number in 0..engine.pages() {
        push_item(&mut numbers, number)?;
    }
    Ok(numbers)
}

/// Adds the picture of all pages of a table.
pub fn draw_all(engine: &mut Engine, alloc: Global, out: &mut Vec<u8>) -> Result<(), PictureFault>
    ensures same { engine.new ≡ engine.old }
    ensures drawn { OnOk result
        (AddsText (IsPictureText engine.old (all_pages engine.old.engine.core))
        out.old.items out.new.items) }
    ensures fault { IfErr result
        (IsPictureFault engine.old.engine.core (all_pages engine.old.engine.core)) }
{
    // (their numbers are listed only where they can be shown)
    if engine.pages() as usize > MOST_PAGES {
        return Err(PictureFault::TooManyPages);
    }
    match all_numbers(engine, alloc) {
        Ok(numbers) => draw_pages(engine, alloc, numbers.as_slice(), out),
        Err(_) => Err(PictureFault::NoMemory),
    }
}

/// Adds the picture of the pages that were asked for; of all, where none was.
pub fn draw_asked(
    engine: &mut Engine,
    alloc: Global,
    numbers: &[u32],
    out: &mut Vec<u8>,
) -> Result<(), PictureFault>
    ensures same { engine.new ≡ engine.old }
    ensures drawn { OnOk result
        (AddsText (IsPictureText engine.old (pages_asked numbers.now engine.old.engine.core))
        out.old.items out.new.items) }
    ensures fault { IfErr result
        (IsPictureFault engine.old.engine.core
        (pages_asked numbers.now engine.old.engine.core)) }
{
    if numbers.is_empty() {
        draw_all(engine, alloc, out)
    } else {
        draw_pages(engine, alloc, numbers, out)
    }
}
