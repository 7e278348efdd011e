//! The slots of a page.

ghost use Rattle.std.specs.Prelude.{◌≡◌, ◌∷◌, ◌++◌, [], IsSome, OnOk, take, slice_get};
ghost use Rattle.tuple_header.specs.Version.{Version};
ghost use Rattle.page_sheet.specs.Slots.{version_at};
ghost use Rattle.slot_fates.specs.Fates.{IsFate};
ghost use Rattle.session_steps.specs.State.{horizon_of};
ghost use Rattle.shapes.specs.Shapes.{Adds, AreVersionShapes, IsVersionShape, IsSlotShape, IsSlotPiece, IsBox, slots_at, version_of_place};
ghost use Rattle.shapes.specs.Dead.{is_dead_fate};

use crate::dots::add_dots;
use crate::links::{add_link, next_in_chain, redirect_of};
use arrayvec::ArrayVec;
use page_slots::Page;
use session_core::{Engine, SlotFate};
use shape_list::{BODY_START, LinkKind, Shape, SlotShape, VersionShape};
use slot_fates::VersionFate;
use std::alloc::AllocError;
use tuple_header::{Header, Row};
use xid_circle::Tid;

/// The first bytes of a body.
fn start_of(body: &[u8]) -> ArrayVec<u8, BODY_START>
    ensures { result.items ≡ take BODY_START body.now }
{
    let mut start = ArrayVec::new();
    let count = body.len().min(BODY_START);
    let _ = start.try_extend_from_slice(&body[..count]);
    start
}

fn version_shape(header: Header, row: &Row) -> VersionShape
    ensures { IsVersionShape (record { header = header; row = row.now }) result }
{
    VersionShape {
        header,
        key: row.key,
        cols: row.cols,
        body_start: start_of(row.body.as_slice()),
        body_bytes: row.body.len(),
    }
}

/// The version in a slot of a page, if it holds one.
fn version_on(page: &Page, slot: u16) -> Option<VersionShape>
    ensures { AreVersionShapes (version_at page.now.slots slot) result }
{
    match page.header(slot) {
        Some(header) => match page.row(slot) {
            Some(row) => Some(version_shape(header, &row.copy())),
            None => None,
        },
        None => None,
    }
}

/// The version at a place, if it holds one.
fn version_at_place(engine: &Engine, place: Tid) -> Option<VersionShape>
    ensures { AreVersionShapes (version_of_place engine.now.engine.core place) result }
{
    match engine.page(place.page) {
        Some(page) => version_on(page, place.slot),
        None => None,
    }
}

/// True where a slot of this fate holds a version that is dead.
fn is_dead(fate: SlotFate) -> bool
    ensures { result ≡ is_dead_fate fate }
{
    match fate {
        SlotFate::Version(VersionFate::RolledBack(_) | VersionFate::Deleted(_)) => true,
        _ => false,
    }
}

fn slot_shape(engine: &Engine, place: Tid, fate: SlotFate) -> SlotShape
    requires { IsFate engine.now.engine.core.heap.statuses (horizon_of engine.now.engine.core)
        (slots_at engine.now.engine.core place.page) place.slot fate }
    ensures { IsSlotShape engine.now.engine.core place result }
{
    SlotShape {
        place,
        fate,
        dead: is_dead(fate),
        version: version_at_place(engine, place),
    }
}

/// Adds the box of a slot of a page in use.
fn add_box(engine: &Engine, place: Tid, shapes: &mut Vec<Shape>) -> Result<(), AllocError>
    requires { IsSome (slice_get engine.now.engine.core.heap.pages.pages place.page) }
    ensures { OnOk result
        (Adds (IsBox engine.now.engine.core place) shapes.old.items shapes.new.items) }
{
    match engine.slot_fate(place.page, place.slot) {
        Some(fate) => {
            shapes.push(Shape::Slot(slot_shape(engine, place, fate)))?;
            Ok(())
        }
        None => Ok(()),
    }
}

/// Adds a slot of a page in use: its box, the arrows from it, and the dots beside it.
pub(crate) fn add_slot(
    engine: &mut Engine,
    place: Tid,
    shapes: &mut Vec<Shape>,
) -> Result<(), AllocError>
    requires { IsSome (slice_get engine.old.engine.core.heap.pages.pages place.page) }
    ensures same { engine.new ≡ engine.old }
    ensures slot { OnOk result
        (Adds (IsSlotPiece engine.old.engine.core place) shapes.old.items shapes.new.items) }
{
    let next = next_in_chain(engine, place);
    add_box(engine, place, shapes)?;
    add_link(LinkKind::Chain, place, next, shapes)?;
    add_link(
        LinkKind::Redirect,
        place,
        redirect_of(engine, place),
        shapes,
    )?;
    add_dots(engine, place, shapes)
}
