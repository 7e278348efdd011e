//! The text of a picture.

ghost use Rattle.std.specs.Prelude.{◌≡◌, ◌<◌, ◌++◌, Some, OnOk, length, slice_get, zip};
ghost use Rattle.svg_text.specs.Svg.{shape_svg, shapes_svg, svg_head, Draws};

use crate::arrows::{entry, link};
use crate::dots::dot;
use crate::ids::{horizon, id, ids, next};
use crate::open_sessions::{page, session};
use crate::sentences::short_number;
use crate::slots::slot;
use picture_layout::{Layout, Spot, lay_out};
use script_text::{RefusedGrowth, extend};
use shape_list::Shape;
use std::alloc::Global;

fn tell_shape(
    out: &mut Vec<u8>,
    layout: &Layout,
    spot: &Spot,
    shape: &Shape,
) -> Result<(), RefusedGrowth>
    ensures { OnOk result
        (out.new.items ≡ out.old.items ++ shape_svg layout.now spot.now shape.now) }
{
    match shape {
        Shape::Ids(left_out) => ids(out, spot, *left_out),
        Shape::Id(of) => id(out, spot, of),
        Shape::Horizon(of) => horizon(out, spot, of),
        Shape::Next(x) => next(out, spot, *x),
        Shape::Session(of) => session(out, spot, of),
        Shape::Page(of) => page(out, spot, of),
        Shape::Slot(of) => slot(out, layout, spot, of),
        Shape::Link(of) => link(out, spot, of),
        Shape::Entry(of) => entry(out, layout, spot, of),
        Shape::Dot(of) => dot(out, spot, of),
    }
}

// The spot of this number.
fn spot_at(spots: &[Spot], i: usize) -> Spot
    requires { i < length spots.now }
    ensures { slice_get spots.now i ≡ Some result }
{
    spots[i]
}

fn tell_shapes(
    out: &mut Vec<u8>,
    layout: &Layout,
    spots: &[Spot],
    shapes: &[Shape],
) -> Result<(), RefusedGrowth>
    requires { length spots.now ≡ length shapes.now }
    ensures { OnOk result
        (out.new.items ≡ out.old.items ++ shapes_svg layout.now (zip spots.now shapes.now)) }
{
    for i in 0..shapes.len() {
        let spot = spot_at(spots, i);
        tell_shape(out, layout, &spot, &shapes[i])?;
    }
    Ok(())
}

fn head(out: &mut Vec<u8>, layout: &Layout) -> Result<(), RefusedGrowth>
    ensures { OnOk result (out.new.items ≡ out.old.items ++ svg_head layout.now) }
{
    short_number(
        out,
        b"<svg xmlns='http://www.w3.org/2000/svg' width='",
        layout.width,
    )?;
    short_number(out, b"' height='", layout.height)?;
    short_number(out, b"' viewBox='0 0 ", layout.width)?;
    short_number(out, b" ", layout.height)?;
    extend(
        out,
        b"' font-family='ui-monospace, DejaVu Sans Mono, Menlo, Consolas, monospace' font-size='12' fill='#222'><rect width='100%' height='100%' fill='#fff'/>",
    )
}

/// Adds the picture of shapes to a text.
pub fn tell_picture(out: &mut Vec<u8>, alloc: Global, shapes: &[Shape]) -> Result<(), RefusedGrowth>
    ensures { OnOk result (Draws shapes.now out.old.items out.new.items) }
{
    let (layout, spots) = lay_out(alloc, shapes)?;
    head(out, &layout)?;
    tell_shapes(out, &layout, spots.as_slice(), shapes)?;
    extend(out, b"</svg>")
}
