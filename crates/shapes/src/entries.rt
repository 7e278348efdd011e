//! The arrows from the entries of the indexes.

ghost use Rattle.std.specs.Prelude.{◌≡◌, ◌==◌, ◌∷◌, ◌++◌, [], if◌then◌else◌, OnOk};
ghost use Rattle.shapes.specs.Shapes.{Adds, AreEntries, entry_shapes, entry_shapes_of};
ghost use Rattle.shape_list.specs.declared.shape.Shape.TheVariants as shape;

use root_index::{Entry, RootIndex};
use session_core::Engine;
use shape_list::{EntryShape, Shape};
use std::alloc::AllocError;

/// Adds an arrow from an entry of an index, if it leads to the page.
fn add_entry(page: u32, index: u8, entry: Entry, shapes: &mut Vec<Shape>) -> Result<(), AllocError>
    ensures { OnOk result
        (shapes.new.items ≡ shapes.old.items ++ entry_shapes_of page index (entry ∷ [])) }
{
    if entry.tid.page == page {
        shapes.push(Shape::Entry(EntryShape { index, entry }))?;
    }
    Ok(())
}

/// Adds an arrow from each entry of an index that leads to the page.
fn add_entries_in(
    index: &RootIndex,
    page: u32,
    number: u8,
    shapes: &mut Vec<Shape>,
) -> Result<(), AllocError>
    ensures { OnOk result
        (shapes.new.items
        ≡ shapes.old.items ++ entry_shapes_of page number index.now.entries) }
{
    index.fact_ascending();
    let mut next = index.next_after(None);
    for _ in 0..index.len() {
        match next {
            Some(entry) => {
                add_entry(page, number, entry, shapes)?;
                next = index.next_after(Some(entry));
            }
            None => {}
        }
    }
    Ok(())
}

/// As above, of the index of this number, if there is one.
fn add_index(
    engine: &Engine,
    page: u32,
    number: u8,
    shapes: &mut Vec<Shape>,
) -> Result<(), AllocError>
    ensures { OnOk result
        (shapes.new.items
        ≡ shapes.old.items ++ entry_shapes engine.now.engine.core page number) }
{
    match engine.index(number) {
        Some(index) => add_entries_in(index, page, number, shapes),
        None => Ok(()),
    }
}

/// Adds an arrow from each entry of each index that leads to the page.
pub(crate) fn add_entries(
    engine: &Engine,
    page: u32,
    shapes: &mut Vec<Shape>,
) -> Result<(), AllocError>
    ensures { OnOk result
        (Adds (AreEntries engine.now.engine.core page) shapes.old.items shapes.new.items) }
{
    for number in 0..5u8 {
        add_index(engine, page, number, shapes)?;
    }
    Ok(())
}
