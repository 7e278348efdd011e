//! The text of sessions and of pages.

ghost use Rattle.std.specs.Prelude.{◌≡◌, ◌++◌, OnOk};
ghost use Rattle.svg_text.specs.Svg.{reads_words, failed_words, waits_words, session_svg, noted_words, page_svg};

use crate::parts::{colour, text_at};
use crate::sentences::{byte_number, id_number, number, short_number};
use picture_layout::Spot;
use script_text::{RefusedGrowth, extend};
use shape_list::{PageShape, SessionShape};

fn reads(out: &mut Vec<u8>, session: &SessionShape) -> Result<(), RefusedGrowth>
    ensures { OnOk result (out.new.items ≡ out.old.items ++ reads_words session.now) }
{
    if session.by_statement {
        return extend(
            out,
            b" by statement reads, in each, what has committed by then",
        );
    }
    id_number(out, b" reads what had committed when ", session.next)?;
    extend(out, b" was the next id")
}

fn failure(out: &mut Vec<u8>, failed: bool) -> Result<(), RefusedGrowth>
    ensures { OnOk result (out.new.items ≡ out.old.items ++ failed_words failed) }
{
    if failed {
        extend(out, b"; it has failed")
    } else {
        Ok(())
    }
}

fn waits(out: &mut Vec<u8>, other: Option<u8>) -> Result<(), RefusedGrowth>
    ensures { OnOk result (out.new.items ≡ out.old.items ++ waits_words other) }
{
    match other {
        None => Ok(()),
        Some(s) => byte_number(out, b"; it waits for session ", s),
    }
}

pub(crate) fn session(
    out: &mut Vec<u8>,
    spot: &Spot,
    session: &SessionShape,
) -> Result<(), RefusedGrowth>
    ensures { OnOk result (out.new.items ≡ out.old.items ++ session_svg spot.now session.now) }
{
    short_number(out, b"<circle cx='", spot.x)?;
    short_number(out, b"' cy='", spot.y)?;
    extend(out, b"' r='7' fill='")?;
    colour(out, session.session)?;
    extend(out, b"'/>")?;
    text_at(out, spot.to, spot.y)?;
    byte_number(out, b"><tspan font-weight='bold'>session ", session.session)?;
    extend(out, b"</tspan>")?;
    reads(out, session)?;
    failure(out, session.failed)?;
    waits(out, session.waits_for)?;
    extend(out, b"</text>")
}

// What the visibility map notes, by its bits.
fn note(out: &mut Vec<u8>, bits: u8) -> Result<(), RefusedGrowth>
    ensures { OnOk result (out.new.items ≡ out.old.items ++ noted_words bits) }
{
    match bits {
        0 => extend(out, b"nothing noted"),
        1 => extend(out, b"all-visible"),
        _ => extend(out, b"all-frozen"),
    }
}

pub(crate) fn page(out: &mut Vec<u8>, spot: &Spot, page: &PageShape) -> Result<(), RefusedGrowth>
    ensures { OnOk result (out.new.items ≡ out.old.items ++ page_svg spot.now page.now) }
{
    text_at(out, spot.x, spot.y)?;
    short_number(out, b"><tspan font-weight='bold'>page ", page.page)?;
    number(out, b"</tspan><tspan fill='#666'> change ", page.change)?;
    number(out, b", ", page.room as u64)?;
    extend(out, b" bytes of room, ")?;
    note(out, page.bits)?;
    extend(out, b"</tspan></text>")
}
