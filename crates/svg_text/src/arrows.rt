//! The text of arrows.

ghost use Rattle.std.specs.Prelude.{◌≡◌, ◌++◌, OnOk};
ghost use Rattle.std.specs.Fmt.{signed_decimal};
ghost use Rattle.svg_text.specs.Sentences.{numbered};
ghost use Rattle.svg_text.specs.Svg.{kind_colour, kind_title, link_svg, index_words, entry_svg};

use crate::parts::{signed_number, text_at};
use crate::sentences::{number, short_number, slot_number};
use picture_layout::{Layout, Spot};
use script_text::{RefusedGrowth, extend};
use shape_list::{EntryShape, LinkKind, LinkShape};

fn colour_of(out: &mut Vec<u8>, kind: LinkKind) -> Result<(), RefusedGrowth>
    ensures { OnOk result (out.new.items ≡ out.old.items ++ kind_colour kind) }
{
    match kind {
        LinkKind::Chain => extend(out, b"#1f5fa8"),
        LinkKind::Redirect => extend(out, b"#8a6500"),
    }
}

fn title(out: &mut Vec<u8>, kind: LinkKind, slot: u16) -> Result<(), RefusedGrowth>
    ensures { OnOk result (out.new.items ≡ out.old.items ++ numbered (kind_title kind) slot) }
{
    match kind {
        LinkKind::Chain => slot_number(out, b"the chain goes on from slot ", slot),
        LinkKind::Redirect => slot_number(out, b"a redirect leads from slot ", slot),
    }
}

pub(crate) fn link(out: &mut Vec<u8>, spot: &Spot, of: &LinkShape) -> Result<(), RefusedGrowth>
    ensures { OnOk result (out.new.items ≡ out.old.items ++ link_svg spot.now of.now) }
{
    extend(out, b"<g><title>")?;
    title(out, of.kind, of.place.slot)?;
    slot_number(out, b" to slot ", of.to)?;
    short_number(out, b"</title><path d='M", spot.x)?;
    short_number(out, b" ", spot.y)?;
    short_number(out, b"H", spot.lane)?;
    short_number(out, b"V", spot.to)?;
    short_number(out, b"H", spot.x)?;
    extend(out, b"' fill='none' stroke-width='1.5' stroke='")?;
    colour_of(out, of.kind)?;
    short_number(out, b"'/><path d='M", spot.x)?;
    short_number(out, b" ", spot.to)?;
    extend(out, b"l7 -4v8z' fill='")?;
    colour_of(out, of.kind)?;
    extend(out, b"'/></g>")
}

fn index(out: &mut Vec<u8>, number_of: u8) -> Result<(), RefusedGrowth>
    ensures { OnOk result (out.new.items ≡ out.old.items ++ index_words number_of) }
{
    if number_of == 0 {
        return extend(out, b"key ");
    }
    number(out, b"column ", u64::from(number_of - 1))?;
    extend(out, b": ")
}

// The value of an entry, said of the entry.
fn value(out: &mut Vec<u8>, of: &EntryShape) -> Result<(), RefusedGrowth>
    ensures { OnOk result (out.new.items ≡ out.old.items ++ signed_decimal of.now.entry.value) }
{
    signed_number(out, of.entry.value)
}

pub(crate) fn entry(
    out: &mut Vec<u8>,
    layout: &Layout,
    spot: &Spot,
    of: &EntryShape,
) -> Result<(), RefusedGrowth>
    ensures { OnOk result (out.new.items ≡ out.old.items ++ entry_svg layout.now spot.now of.now) }
{
    extend(out, b"<g>")?;
    text_at(out, spot.x, spot.y)?;
    extend(out, b" text-anchor='end' fill='#05600a'>")?;
    index(out, of.index)?;
    value(out, of)?;
    short_number(out, b"</text><path d='M", layout.arrow_x)?;
    short_number(out, b" ", spot.y)?;
    short_number(out, b"H", layout.box_x)?;
    short_number(
        out,
        b"' stroke='#05600a' stroke-width='1.5'/><path d='M",
        layout.box_x,
    )?;
    short_number(out, b" ", spot.y)?;
    extend(out, b"l-7 -4v8z' fill='#05600a'/></g>")
}
