//! The picture.

ghost use Rattle.std.specs.Prelude.{◌≡◌, ◌<◌, ℕ, Some, IsSome, OnOk, IfOk, MatchOption, MatchResult, length, slice_get};
ghost use Rattle.shapes.specs.Shapes.{Adds, AreHead, ArePages, IsPicture, IsNotInUse, IsFirstNotInUse, AreAllInUse, CanBeShown, IsPictureFault, IsAskFault};

use crate::fault::{MOST_PAGES, PictureFault};
use crate::ids::{add_ids, horizon_shape, left_out};
use crate::open_sessions::add_sessions;
use crate::pages::add_page;
use session_core::Engine;
use shape_list::Shape;
use std::alloc::{AllocError, Global};

/// The first of these pages that is not in use, if one is not.
fn first_not_in_use(engine: &Engine, numbers: &[u32]) -> Option<u32>
    ensures { MatchOption result (AreAllInUse engine.now.engine.core numbers.now)
        (IsFirstNotInUse engine.now.engine.core numbers.now) }
{
    for number in numbers {
        if engine.page(*number).is_none() {
            return Some(*number);
        }
    }
    None
}

/// Why there is no picture of these pages, but for memory.
fn ask_fault(engine: &Engine, numbers: &[u32]) -> Option<PictureFault>
    ensures { IsAskFault engine.now.engine.core numbers.now result }
{
    if numbers.len() > MOST_PAGES {
        return Some(PictureFault::TooManyPages);
    }
    match first_not_in_use(engine, numbers) {
        Some(number) => Some(PictureFault::NoSuchPage(number)),
        None => None,
    }
}

/// Adds the ids, the horizon, the next id and the sessions.
fn add_head(engine: &mut Engine, shapes: &mut Vec<Shape>) -> Result<(), AllocError>
    ensures same { engine.new ≡ engine.old }
    ensures head { OnOk result (Adds (AreHead engine.old) shapes.old.items shapes.new.items) }
{
    shapes.push(Shape::Ids(left_out(engine)))?;
    add_ids(engine, shapes)?;
    shapes.push(Shape::Horizon(horizon_shape(engine)))?;
    shapes.push(Shape::Next(engine.ids().0))?;
    add_sessions(engine, shapes)
}

/// Adds pages that are in use.
fn add_pages(
    engine: &mut Engine,
    numbers: &[u32],
    shapes: &mut Vec<Shape>,
) -> Result<(), AllocError>
    requires { AreAllInUse engine.old.engine.core numbers.now }
    ensures same { engine.new ≡ engine.old }
    ensures pages { OnOk result
        (Adds (ArePages engine.old.engine.core numbers.now) shapes.old.items shapes.new.items) }
{
    for number in numbers {
        add_page(engine, *number, shapes)?;
    }
    Ok(())
}

/// The shapes of all.
fn shapes_of(engine: &mut Engine, alloc: Global, numbers: &[u32]) -> Result<Vec<Shape>, AllocError>
    requires { AreAllInUse engine.old.engine.core numbers.now }
    ensures same { engine.new ≡ engine.old }
    ensures picture { IfOk result (λ shapes. IsPicture engine.old numbers.now shapes.items) }
{
    let mut shapes = Vec::new(alloc);
    add_head(engine, &mut shapes)?;
    add_pages(engine, numbers, &mut shapes)?;
    Ok(shapes)
}

/// What a picture of the pages of these numbers shows, as the table is now. It is no step, and changes nothing: the engine is asked for
/// the statuses of ids, which it keeps. Faults in order: TooManyPages, NoSuchPage, NoMemory.
pub fn picture(
    engine: &mut Engine,
    alloc: Global,
    numbers: &[u32],
) -> Result<Vec<Shape>, PictureFault>
    ensures same { engine.new ≡ engine.old }
    ensures picture { MatchResult result
        (λ shapes. IsPicture engine.old numbers.now shapes.items)
        (IsPictureFault engine.old.engine.core numbers.now) }
    ensures few { IfOk result (λ _. CanBeShown engine.old.engine.core numbers.now) }
{
    match ask_fault(engine, numbers) {
        Some(fault) => Err(fault),
        None => match shapes_of(engine, alloc, numbers) {
            Ok(shapes) => Ok(shapes),
            Err(_) => Err(PictureFault::NoMemory),
        },
    }
}
