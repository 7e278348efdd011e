//! The arrows between slots.

ghost use Rattle.std.specs.Prelude.{◌≡◌, ◌++◌, OnOk};
ghost use Rattle.page_sheet.specs.Slots.{header_at as header_in, redirect_at};
ghost use Rattle.hot_chain.specs.Chain.{has_aborted, is_replaced as is_replaced_by, successor as successor_in, next_in_chain as next_in};
ghost use Rattle.shapes.specs.Shapes.{slots_at, links_to};

use commit_status::Status;
use session_core::Engine;
use shape_list::{LinkKind, LinkShape, Shape};
use std::alloc::AllocError;
use tuple_header::Header;
use xid_circle::{Tid, Xid};

/// The header of the version at a place, if it holds one.
fn header_at(engine: &Engine, page: u32, slot: u16) -> Option<Header>
    ensures { result ≡ header_in (slots_at engine.now.engine.core page) slot }
{
    match engine.page(page) {
        Some(page) => page.header(slot),
        None => None,
    }
}

fn is_aborted(engine: &mut Engine, x: Xid) -> bool
    ensures same { engine.new ≡ engine.old }
    ensures value { result ≡ has_aborted engine.old.engine.core.heap.statuses x.0 }
{
    match engine.status_of(x) {
        Some(Status::Aborted) => true,
        _ => false,
    }
}

/// True where a HOT update that has not aborted replaced the version.
fn is_replaced(engine: &mut Engine, header: &Header) -> bool
    ensures same { engine.new ≡ engine.old }
    ensures value { result
        ≡ is_replaced_by (has_aborted engine.old.engine.core.heap.statuses) header.now }
{
    let aborted = is_aborted(engine, header.xmax);
    header.is_hot_updated() && header.xmax.0 != 0 && !aborted
}

/// Where the chain goes on from the version of this header.
fn successor(engine: &mut Engine, page: u32, header: &Header) -> Option<u16>
    ensures same { engine.new ≡ engine.old }
    ensures value { result
        ≡ successor_in (has_aborted engine.old.engine.core.heap.statuses)
        (slots_at engine.old.engine.core page) header.now }
{
    let replaced = is_replaced(engine, header);
    if !replaced {
        return None;
    }
    match header_at(engine, page, header.ctid.slot) {
        Some(later) if later.is_heap_only() && later.xmin.0 == header.xmax.0 => Some(
            header.ctid.slot,
        ),
        _ => None,
    }
}

/// Where the chain goes on from a place.
pub(crate) fn next_in_chain(engine: &mut Engine, place: Tid) -> Option<u16>
    ensures same { engine.new ≡ engine.old }
    ensures value { result
        ≡ next_in (has_aborted engine.old.engine.core.heap.statuses)
        (slots_at engine.old.engine.core place.page) place.slot }
{
    match header_at(engine, place.page, place.slot) {
        Some(header) => successor(engine, place.page, &header),
        None => None,
    }
}

/// Where a redirect at a place leads, if it holds one.
pub(crate) fn redirect_of(engine: &Engine, place: Tid) -> Option<u16>
    ensures { result ≡ redirect_at (slots_at engine.now.engine.core place.page) place.slot }
{
    match engine.page(place.page) {
        Some(page) => page.redirect(place.slot),
        None => None,
    }
}

/// Adds an arrow to a slot, if there is one to lead to.
pub(crate) fn add_link(
    kind: LinkKind,
    place: Tid,
    to: Option<u16>,
    shapes: &mut Vec<Shape>,
) -> Result<(), AllocError>
    ensures { OnOk result (shapes.new.items ≡ shapes.old.items ++ links_to kind place to) }
{
    match to {
        Some(to) => {
            shapes.push(Shape::Link(LinkShape { kind, place, to }))?;
            Ok(())
        }
        None => Ok(()),
    }
}
