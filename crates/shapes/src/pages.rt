//! The pages.

ghost use Rattle.std.specs.Prelude.{◌≡◌, Some, IsSome, OnOk, length, slice_get};
ghost use Rattle.index_lookup.specs.Pages.{slots_on};
ghost use Rattle.shapes.specs.Shapes.{Adds, IsPageShape, IsPageHead, AreSlots, IsPagePiece, slots_at};

use crate::entries::add_entries;
use crate::slots::add_slot;
use page_slots::Page;
use session_core::Engine;
use shape_list::{PageShape, Shape};
use std::alloc::AllocError;
use xid_circle::Tid;

fn page_shape(engine: &Engine, number: u32, page: &Page) -> PageShape
    requires { slice_get engine.now.engine.core.heap.pages.pages number ≡ Some page.now }
    ensures { IsPageShape engine.now.engine.core number page.now result }
{
    PageShape {
        page: number,
        change: page.change(),
        bits: engine.page_bits(number).unwrap_or(0),
        room: page.room(),
        slots: page.slots(),
    }
}

/// Adds what is told of a page in use as a whole.
fn add_head(engine: &Engine, number: u32, shapes: &mut Vec<Shape>) -> Result<(), AllocError>
    requires { IsSome (slice_get engine.now.engine.core.heap.pages.pages number) }
    ensures { OnOk result
        (Adds (IsPageHead engine.now.engine.core number) shapes.old.items shapes.new.items) }
{
    match engine.page(number) {
        Some(page) => {
            shapes.push(Shape::Page(page_shape(engine, number, page)))?;
            Ok(())
        }
        None => Ok(()),
    }
}

/// How many slots the page has; none where it is not in use.
fn slot_count(engine: &Engine, number: u32) -> u16
    ensures { result ≡ length (slots_at engine.now.engine.core number) }
{
    match engine.page(number) {
        Some(page) => page.slots(),
        None => 0,
    }
}

/// Adds the slots of a page in use.
fn add_slots(engine: &mut Engine, number: u32, shapes: &mut Vec<Shape>) -> Result<(), AllocError>
    requires { IsSome (slice_get engine.old.engine.core.heap.pages.pages number) }
    ensures same { engine.new ≡ engine.old }
    ensures slots { OnOk result
        (Adds (AreSlots engine.old.engine.core number) shapes.old.items shapes.new.items) }
{
    for i in 0..slot_count(engine, number) {
        let place = Tid {
            page: number,
            slot: i + 1,
        };
        add_slot(engine, place, shapes)?;
    }
    Ok(())
}

/// Adds a page in use, its slots, and the entries that lead there.
pub(crate) fn add_page(
    engine: &mut Engine,
    number: u32,
    shapes: &mut Vec<Shape>,
) -> Result<(), AllocError>
    requires { IsSome (slice_get engine.old.engine.core.heap.pages.pages number) }
    ensures same { engine.new ≡ engine.old }
    ensures page { OnOk result
        (Adds (IsPagePiece engine.old.engine.core number) shapes.old.items shapes.new.items) }
{
    add_head(engine, number, shapes)?;
    add_slots(engine, number, shapes)?;
    add_entries(engine, number, shapes)
}
