//! The text of slots.

ghost use Rattle.std.specs.Prelude.{◌≡◌, ◌++◌, OnOk};
ghost use Rattle.std.specs.List.{flat_map};
ghost use Rattle.std.specs.Fmt.{signed_decimal};
ghost use Rattle.script_text.specs.Grammar.{spaced};
ghost use Rattle.svg_text.specs.Svg.{fill_of, box_svg, kind_words, xmin_words, xmax_words, header_svg, glyph_text, rest_words, body_words, row_svg, dead_svg, version_svg, redirect_svg, dead_slot_svg, unused_svg, instead_svg, slot_svg};

use crate::parts::{signed_number, text_at, word_at};
use crate::sentences::{id_number, number, short_number, slot_number};
use picture_layout::{Layout, Spot};
use script_text::{RefusedGrowth, extend, push};
use shape_list::{SlotShape, VersionShape};
use slot_fates::SlotFate;
use tuple_header::Header;
use xid_circle::Xid;

fn fill(out: &mut Vec<u8>, dead: bool, fate: SlotFate) -> Result<(), RefusedGrowth>
    ensures { OnOk result (out.new.items ≡ out.old.items ++ fill_of dead fate) }
{
    match fate {
        SlotFate::Version(_) => if dead {
            extend(out, b"#d0d0d0")
        } else {
            extend(out, b"#fff")
        },
        SlotFate::Redirect(_) => extend(out, b"#fff0b0"),
        SlotFate::Dead => extend(out, b"#9a9a9a"),
        SlotFate::Unused => extend(out, b"#f4f4f4"),
        SlotFate::NoSlot => extend(out, b"#f4f4f4"),
    }
}

#[tactic(auto, unfolding(crate::specs::Svg::box_svg))]
fn rectangle(
    out: &mut Vec<u8>,
    layout: &Layout,
    spot: &Spot,
    slot: &SlotShape,
) -> Result<(), RefusedGrowth>
    ensures { OnOk result
        (out.new.items ≡ out.old.items ++ box_svg layout.now spot.now slot.now) }
{
    short_number(out, b"<rect x='", layout.box_x)?;
    short_number(out, b"' y='", spot.to)?;
    short_number(out, b"' width='", layout.box_width)?;
    extend(out, b"' height='22' rx='3' stroke='#888' fill='")?;
    fill(out, slot.dead, slot.fate)?;
    extend(out, b"'/>")?;
    text_at(out, layout.number_x, spot.y)?;
    slot_number(out, b" text-anchor='end' fill='#555'>", slot.place.slot)?;
    extend(out, b"</text>")
}

fn kind(out: &mut Vec<u8>, header: &Header) -> Result<(), RefusedGrowth>
    ensures { OnOk result (out.new.items ≡ out.old.items ++ kind_words header.now) }
{
    if header.is_heap_only() {
        extend(out, b"heap-only")
    } else {
        extend(out, b"root")
    }
}

fn xmin(out: &mut Vec<u8>, header: &Header) -> Result<(), RefusedGrowth>
    ensures { OnOk result (out.new.items ≡ out.old.items ++ xmin_words header.now) }
{
    if header.is_frozen() {
        id_number(out, b"xmin (", header.xmin)?;
        return extend(out, b")");
    }
    id_number(out, b"xmin ", header.xmin)
}

fn xmax(out: &mut Vec<u8>, xmax: Xid) -> Result<(), RefusedGrowth>
    ensures { OnOk result (out.new.items ≡ out.old.items ++ xmax_words xmax.0) }
{
    if xmax.0 == 0 {
        return extend(out, b"xmax -");
    }
    id_number(out, b"xmax ", xmax)
}

#[tactic(auto, unfolding(crate::specs::Svg::header_svg))]
fn header(
    out: &mut Vec<u8>,
    layout: &Layout,
    spot: &Spot,
    header: &Header,
) -> Result<(), RefusedGrowth>
    ensures { OnOk result
        (out.new.items ≡ out.old.items ++ header_svg layout.now spot.now header.now) }
{
    word_at(out, layout.kind_x, spot.y)?;
    kind(out, header)?;
    extend(out, b"</text>")?;
    word_at(out, layout.xmin_x, spot.y)?;
    xmin(out, header)?;
    extend(out, b"</text>")?;
    word_at(out, layout.xmax_x, spot.y)?;
    xmax(out, header.xmax)?;
    extend(out, b"</text>")
}

fn column(out: &mut Vec<u8>, c: i64) -> Result<(), RefusedGrowth>
    ensures { OnOk result (out.new.items ≡ out.old.items ++ spaced (signed_decimal c)) }
{
    push(out, b' ')?;
    signed_number(out, i128::from(c))
}

fn columns(out: &mut Vec<u8>, cols: &[i64]) -> Result<(), RefusedGrowth>
    ensures { OnOk result
        (out.new.items ≡ out.old.items ++ flat_map (λ c. spaced (signed_decimal c)) cols.now) }
{
    for c in cols {
        column(out, *c)?;
    }
    Ok(())
}

fn glyph(out: &mut Vec<u8>, b: u8) -> Result<(), RefusedGrowth>
    ensures { OnOk result (out.new.items ≡ out.old.items ++ glyph_text b) }
{
    if b == b'<' {
        extend(out, b"&lt;")
    } else if b == b'&' {
        extend(out, b"&amp;")
    } else if b >= 32 && b < 127 {
        push(out, b)
    } else {
        push(out, b'.')
    }
}

fn glyphs(out: &mut Vec<u8>, bytes: &[u8]) -> Result<(), RefusedGrowth>
    ensures { OnOk result (out.new.items ≡ out.old.items ++ flat_map glyph_text bytes.now) }
{
    for b in bytes {
        glyph(out, *b)?;
    }
    Ok(())
}

fn rest(out: &mut Vec<u8>, shown: usize, bytes: usize) -> Result<(), RefusedGrowth>
    ensures { OnOk result (out.new.items ≡ out.old.items ++ rest_words shown bytes) }
{
    if shown < bytes {
        number(out, b".. (", bytes as u64)?;
        return extend(out, b" bytes)");
    }
    Ok(())
}

// The columns of a version, said of the version.
fn columns_of(out: &mut Vec<u8>, version: &VersionShape) -> Result<(), RefusedGrowth>
    ensures { OnOk result (out.new.items ≡ out.old.items
        ++ flat_map (λ c. spaced (signed_decimal c)) version.now.cols) }
{
    columns(out, version.cols.as_slice())
}

fn body(out: &mut Vec<u8>, version: &VersionShape) -> Result<(), RefusedGrowth>
    ensures { OnOk result (out.new.items ≡ out.old.items ++ body_words version.now) }
{
    glyphs(out, version.body_start.as_slice())?;
    rest(out, version.body_start.len(), version.body_bytes)
}

#[tactic(auto, unfolding(crate::specs::Svg::row_svg))]
fn row(
    out: &mut Vec<u8>,
    layout: &Layout,
    spot: &Spot,
    version: &VersionShape,
) -> Result<(), RefusedGrowth>
    ensures { OnOk result
        (out.new.items ≡ out.old.items ++ row_svg layout.now spot.now version.now) }
{
    word_at(out, layout.key_x, spot.y)?;
    number(out, b"key ", version.key)?;
    extend(out, b"</text>")?;
    word_at(out, layout.cols_x, spot.y)?;
    columns_of(out, version)?;
    extend(out, b"</text>")?;
    word_at(out, layout.body_x, spot.y)?;
    body(out, version)?;
    extend(out, b"</text>")
}

fn dead(out: &mut Vec<u8>, layout: &Layout, spot: &Spot, dead: bool) -> Result<(), RefusedGrowth>
    ensures { OnOk result (out.new.items ≡ out.old.items ++ dead_svg layout.now spot.now dead) }
{
    if dead {
        text_at(out, layout.dead_x, spot.y)?;
        return extend(out, b" font-weight='bold'>dead</text>");
    }
    Ok(())
}

fn version(
    out: &mut Vec<u8>,
    layout: &Layout,
    spot: &Spot,
    version: &Option<VersionShape>,
) -> Result<(), RefusedGrowth>
    ensures { OnOk result
        (out.new.items ≡ out.old.items ++ version_svg layout.now spot.now version.now) }
{
    match version {
        None => Ok(()),
        Some(version) => {
            header(out, layout, spot, &version.header)?;
            row(out, layout, spot, version)
        }
    }
}

fn redirect(out: &mut Vec<u8>, layout: &Layout, spot: &Spot, to: u16) -> Result<(), RefusedGrowth>
    ensures { OnOk result (out.new.items ≡ out.old.items ++ redirect_svg layout.now spot.now to) }
{
    word_at(out, layout.kind_x, spot.y)?;
    slot_number(out, b"redirect to ", to)?;
    extend(out, b"</text>")
}

fn dead_slot(out: &mut Vec<u8>, layout: &Layout, spot: &Spot) -> Result<(), RefusedGrowth>
    ensures { OnOk result (out.new.items ≡ out.old.items ++ dead_slot_svg layout.now spot.now) }
{
    word_at(out, layout.kind_x, spot.y)?;
    extend(out, b"dead slot, until a vacuum frees it</text>")
}

fn unused_slot(out: &mut Vec<u8>, layout: &Layout, spot: &Spot) -> Result<(), RefusedGrowth>
    ensures { OnOk result (out.new.items ≡ out.old.items ++ unused_svg layout.now spot.now) }
{
    word_at(out, layout.kind_x, spot.y)?;
    extend(out, b"unused</text>")
}

fn instead(
    out: &mut Vec<u8>,
    layout: &Layout,
    spot: &Spot,
    fate: SlotFate,
) -> Result<(), RefusedGrowth>
    ensures { OnOk result
        (out.new.items ≡ out.old.items ++ instead_svg layout.now spot.now fate) }
{
    match fate {
        SlotFate::Version(_) => Ok(()),
        SlotFate::Redirect(to) => redirect(out, layout, spot, to),
        SlotFate::Dead => dead_slot(out, layout, spot),
        SlotFate::Unused => unused_slot(out, layout, spot),
        SlotFate::NoSlot => Ok(()),
    }
}

pub(crate) fn slot(
    out: &mut Vec<u8>,
    layout: &Layout,
    spot: &Spot,
    slot: &SlotShape,
) -> Result<(), RefusedGrowth>
    ensures { OnOk result
        (out.new.items ≡ out.old.items ++ slot_svg layout.now spot.now slot.now) }
{
    rectangle(out, layout, spot, slot)?;
    instead(out, layout, spot, slot.fate)?;
    version(out, layout, spot, &slot.version)?;
    dead(out, layout, spot, slot.dead)
}
