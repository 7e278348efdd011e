//! The dots of the sessions beside a version.

ghost use Rattle.std.specs.Prelude.{◌≡◌, ◌<◌, ◌↔◌, IsTrue, IsSome, Some, OnOk};
ghost use Rattle.tuple_header.specs.Version.{Version};
ghost use Rattle.calls.specs.declared.step.TheConstants.{MOST_SESSIONS};
ghost use Rattle.session_steps.specs.State.{session_at};
ghost use Rattle.shapes.specs.Shapes.{Adds, AreDots, IsDotPiece, version_of_place};

use session_core::Engine;
use shape_list::{DotShape, Shape};
use std::alloc::AllocError;
use xid_circle::Tid;

/// True where a place holds a version.
fn holds_version(engine: &Engine, place: Tid) -> bool
    ensures { IsTrue result ↔ IsSome (version_of_place engine.now.engine.core place) }
{
    match engine.page(place.page) {
        Some(page) => page.header(place.slot).is_some(),
        None => false,
    }
}

/// Adds the dot of a session beside the version at a place, if the session is open. The chain of that place begins with the version.
fn add_dot(engine: &Engine, place: Tid, s: u8, shapes: &mut Vec<Shape>) -> Result<(), AllocError>
    requires within { s < MOST_SESSIONS }
    requires there { IsSome (version_of_place engine.now.engine.core place) }
    ensures { OnOk result ((t : Version) → version_of_place engine.now.engine.core place ≡ Some t
        → Adds (IsDotPiece engine.now.engine.core place t s (session_at engine.now.engine.core s))
        shapes.old.items shapes.new.items) }
{
    match engine.explain(s, place, 0) {
        Ok(Some(shown)) => {
            let verdict = shown.verdict;
            shapes.push(Shape::Dot(DotShape {
                place,
                session: s,
                filled: verdict.shows(),
                verdict,
            }))?;
            Ok(())
        }
        Ok(None) => Ok(()),
        Err(_) => Ok(()),
    }
}

/// Adds the dots of the open sessions beside the version at a place, if it holds one.
pub(crate) fn add_dots(
    engine: &Engine,
    place: Tid,
    shapes: &mut Vec<Shape>,
) -> Result<(), AllocError>
    ensures { OnOk result
        (Adds (AreDots engine.now.engine.core place
        (version_of_place engine.now.engine.core place)) shapes.old.items shapes.new.items) }
{
    if !holds_version(engine, place) {
        return Ok(());
    }
    for s in 0..64u8 {
        add_dot(engine, place, s, shapes)?;
    }
    Ok(())
}
