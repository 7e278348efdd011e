//! Where shapes stand. Nothing of it is promised but that each has a spot: it is looked at in a browser.

ghost use Rattle.std.specs.Prelude.{◌≡◌, IfOk, length};

use crate::lanes::{Run, give_lanes, lanes_in, runs_of};
use crate::widths::{Widths, pixels, widths_of};
use script_text::{RefusedGrowth, push_item};
use shape_list::Shape;
use std::alloc::Global;

/// Where the parts of a picture stand, in pixels from the left, and how large it is.
#[derive(Clone, Copy, Debug, Drop, PartialEq, Eq)]
pub struct Layout {
    /// How wide the picture is.
    pub width: u32,
    /// How high.
    pub height: u32,
    /// Where the arrows from entries begin.
    pub arrow_x: u32,
    /// Where boxes begin.
    pub box_x: u32,
    /// How wide they are.
    pub box_width: u32,
    /// Where the numbers of slots end.
    pub number_x: u32,
    /// Where it begins what kind of version it is.
    pub kind_x: u32,
    /// Where xmin does.
    pub xmin_x: u32,
    /// Where xmax does.
    pub xmax_x: u32,
    /// Where the key does.
    pub key_x: u32,
    /// Where the columns do.
    pub cols_x: u32,
    /// Where the body does.
    pub body_x: u32,
    /// Where the word for a dead version does.
    pub dead_x: u32,
}

/// Where a shape stands.
#[derive(Clone, Copy, Debug, Drop, PartialEq, Eq)]
pub struct Spot {
    /// From the left.
    pub x: u32,
    /// From the top.
    pub y: u32,
    /// A second place: where an arrow ends, where a box begins or a text stands.
    pub to: u32,
    /// A third: the lane of an arrow, or where a second text stands.
    pub lane: u32,
}

/// How many ids stand in a row, and how far apart they are at least.
const IDS_IN_A_ROW: u32 = 10;

const ID_STEP: u32 = 66;

const ROW_OF_IDS: u32 = 62;

const ROW_OF_SLOTS: u32 = 26;

/// How far the pen has come.
#[derive(Clone, Copy, Drop)]
struct Pen {
    /// How many ids, and how many arrows between slots, have their spots.
    ids: u32,
    links: usize,
    /// Where the last line of text stands.
    y: u32,
    /// Where the page's own line does, and the last of its slots.
    page_y: u32,
    page_end: u32,
}

/// Where so many characters end that begin here.
fn behind(x: u32, characters: u32) -> u32 {
    x.saturating_add(pixels(characters))
}

/// The columns of the boxes, by how wide they have to be.
fn columns(widths: &Widths) -> Layout {
    let labels = widths.labels_before(5);
    let arrow_x = 14u32.saturating_add(labels);
    let box_x = arrow_x.saturating_add(if labels == 0 { 0 } else { 26 });
    let kind_x = box_x.saturating_add(40);
    let xmin_x = behind(kind_x, 11);
    let xmax_x = behind(xmin_x, widths.xmin.saturating_add(7));
    let key_x = behind(xmax_x, widths.xmax.saturating_add(7));
    let cols_x = behind(key_x, widths.key.saturating_add(6));
    let body_x = behind(cols_x, widths.cols.saturating_add(2));
    let dead_x = behind(body_x, widths.body.saturating_add(2));
    Layout {
        width: 0,
        height: 0,
        arrow_x,
        box_x,
        box_width: behind(dead_x, 5).saturating_sub(box_x),
        number_x: box_x.saturating_add(28),
        kind_x,
        xmin_x,
        xmax_x,
        key_x,
        cols_x,
        body_x,
        dead_x,
    }
}

/// Where the dots of the first session stand.
fn dots_x(layout: &Layout) -> u32 {
    layout
        .box_x
        .saturating_add(layout.box_width)
        .saturating_add(18)
}

/// Where the arrows between slots begin.
fn links_x(layout: &Layout, widths: &Widths) -> u32 {
    dots_x(layout)
        .saturating_add(widths.sessions.saturating_mul(20))
        .saturating_sub(6)
}

/// How far apart ids are.
fn id_step(widths: &Widths) -> u32 {
    pixels(widths.id).saturating_add(14).max(ID_STEP)
}

/// The spot of the id behind so many.
fn id_spot(widths: &Widths, ids: u32) -> Spot {
    let row = (ids / IDS_IN_A_ROW).saturating_mul(ROW_OF_IDS);
    let y = row.saturating_add(60);
    Spot {
        x: id_step(widths)
            .saturating_mul(ids % IDS_IN_A_ROW)
            .saturating_add(44),
        y,
        to: y.saturating_add(18),
        lane: y.saturating_add(31),
    }
}

/// The spot of the horizon, which is before the id behind so many.
fn horizon_spot(widths: &Widths) -> Spot {
    let at = id_spot(widths, widths.ids_before_horizon);
    Spot {
        x: at.x.saturating_sub(ID_STEP / 2),
        y: at.y.saturating_sub(26),
        to: at.to,
        lane: at.lane,
    }
}

fn next_spot(widths: &Widths, ids: u32) -> Spot {
    let at = id_spot(widths, ids);
    Spot {
        x: at.x.saturating_sub(12),
        y: at.y.saturating_sub(10),
        to: at.y,
        lane: at.lane,
    }
}

/// The middle of a slot's box.
fn slot_y(pen: &Pen, slot: u16) -> u32 {
    pen.page_y
        .saturating_add(u32::from(slot).saturating_mul(ROW_OF_SLOTS))
}

/// The spot of the arrow between two slots behind so many: it leaves a slot below the middle, and comes to one above it.
fn link_spot(pen: &mut Pen, runs: &[Run], x: u32) -> Spot {
    let Some(run) = runs.get(pen.links) else {
        return Spot {
            x,
            y: 0,
            to: 0,
            lane: x,
        };
    };
    pen.links = pen.links.saturating_add(1);
    let (from, to) = (slot_y(pen, run.from), slot_y(pen, run.to));
    Spot {
        x,
        y: from.saturating_add(4),
        to: to.saturating_sub(4),
        lane: x
            .saturating_add(14)
            .saturating_add(run.lane.saturating_mul(10)),
    }
}

/// The next line of text, so far below the last.
fn next_line(pen: &mut Pen, x: u32, to: u32) -> Spot {
    pen.y = pen.y.saturating_add(20);
    Spot {
        x,
        y: pen.y,
        to,
        lane: 0,
    }
}

/// The line of a page, below all slots of the one before.
fn page_spot(pen: &mut Pen, slots: u16) -> Spot {
    pen.page_y = pen.page_end.max(pen.y).saturating_add(36);
    pen.page_end = slot_y(pen, slots);
    Spot {
        x: 14,
        y: pen.page_y,
        to: pen.page_y,
        lane: 0,
    }
}

/// The spot beside a slot, so far from the left.
fn beside(pen: &Pen, slot: u16, x: u32) -> Spot {
    let y = slot_y(pen, slot);
    Spot {
        x,
        y,
        to: y.saturating_sub(11),
        lane: 0,
    }
}

/// The spot of an id that is the next to be shown.
fn next_id_spot(pen: &mut Pen, widths: &Widths) -> Spot {
    let spot = id_spot(widths, pen.ids);
    pen.ids = pen.ids.saturating_add(1);
    pen.y = spot.lane;
    spot
}

/// The end of the word beside the arrow of an index.
fn label_x(layout: &Layout, widths: &Widths, index: u8) -> u32 {
    let passed = widths.labels_before(index);
    layout.arrow_x.saturating_sub(passed).saturating_sub(5)
}

/// The spot of the next shape.
fn spot_of(pen: &mut Pen, layout: &Layout, widths: &Widths, runs: &[Run], shape: &Shape) -> Spot {
    match shape {
        Shape::Ids(_) => next_line(pen, 14, 0),
        Shape::Id(_) => next_id_spot(pen, widths),
        Shape::Horizon(_) => horizon_spot(widths),
        Shape::Next(_) => {
            let spot = next_spot(widths, pen.ids);
            pen.y = spot.lane.saturating_add(10);
            spot
        }
        Shape::Session(_) => next_line(pen, 22, 36),
        Shape::Page(page) => page_spot(pen, page.slots),
        Shape::Slot(slot) => beside(pen, slot.place.slot, layout.box_x),
        Shape::Link(_) => link_spot(pen, runs, links_x(layout, widths)),
        Shape::Entry(of) => {
            let x = label_x(layout, widths, of.index);
            beside(pen, of.entry.tid.slot, x)
        }
        Shape::Dot(dot) => {
            let passed = widths.sessions_before(dot.session).saturating_mul(20);
            beside(pen, dot.place.slot, dots_x(layout).saturating_add(passed))
        }
    }
}

/// The spots of shapes, and the last of the pen.
fn spots_of(
    alloc: Global,
    layout: &Layout,
    widths: &Widths,
    runs: &[Run],
    shapes: &[Shape],
) -> Result<(u32, Vec<Spot>), RefusedGrowth>
    ensures { IfOk result (λ laid. length laid.1.items ≡ length shapes.now) }
{
    let mut pen = Pen {
        ids: 0,
        links: 0,
        y: 0,
        page_y: 0,
        page_end: 0,
    };
    let mut spots = Vec::new(alloc);
    for shape in shapes {
        let spot = spot_of(&mut pen, layout, widths, runs, shape);
        push_item(&mut spots, spot)?;
    }
    Ok((pen.y.max(pen.page_end).saturating_add(30), spots))
}

/// How wide the picture is: the lines of text of a session and of the ids fit, and all lanes.
fn width_of(layout: &Layout, widths: &Widths, runs: &[Run]) -> u32 {
    let lanes = lanes_in(runs).saturating_mul(10).saturating_add(30);
    let boxes = links_x(layout, widths).saturating_add(lanes);
    let horizon = behind(horizon_spot(widths).x, 44);
    let sessions = behind(50, widths.session);
    let row = widths.ids.min(IDS_IN_A_ROW - 1);
    let next = behind(next_spot(widths, row).x, 18);
    boxes.max(horizon).max(sessions).max(next)
}

/// A layout of shapes, and a spot for each.
pub fn lay_out(alloc: Global, shapes: &[Shape]) -> Result<(Layout, Vec<Spot>), RefusedGrowth>
    ensures { IfOk result (λ laid. length laid.1.items ≡ length shapes.now) }
{
    let widths = widths_of(shapes);
    let mut runs = runs_of(alloc, shapes)?;
    give_lanes(runs.as_mut_slice());
    let mut layout = columns(&widths);
    let (height, spots) = spots_of(alloc, &layout, &widths, runs.as_slice(), shapes)?;
    layout.width = width_of(&layout, &widths, runs.as_slice());
    layout.height = height;
    Ok((layout, spots))
}
