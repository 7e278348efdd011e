//! The text of dots.

ghost use Rattle.std.specs.Prelude.{◌≡◌, ◌++◌, OnOk};
ghost use Rattle.svg_text.specs.Svg.{dot_fill, dot_ink, dot_svg};

use crate::parts::{colour, text_at};
use crate::sentences::{byte_number, short_number, tell_verdict};
use picture_layout::Spot;
use script_text::{RefusedGrowth, extend};
use shape_list::DotShape;

fn fill(out: &mut Vec<u8>, dot: &DotShape) -> Result<(), RefusedGrowth>
    ensures { OnOk result (out.new.items ≡ out.old.items ++ dot_fill dot.now) }
{
    if dot.filled {
        colour(out, dot.session)
    } else {
        extend(out, b"#fff")
    }
}

fn ink(out: &mut Vec<u8>, filled: bool) -> Result<(), RefusedGrowth>
    ensures { OnOk result (out.new.items ≡ out.old.items ++ dot_ink filled) }
{
    if filled {
        extend(out, b"#fff")
    } else {
        extend(out, b"#222")
    }
}

pub(crate) fn dot(out: &mut Vec<u8>, spot: &Spot, dot: &DotShape) -> Result<(), RefusedGrowth>
    ensures { OnOk result (out.new.items ≡ out.old.items ++ dot_svg spot.now dot.now) }
{
    extend(out, b"<g><title>")?;
    tell_verdict(out, dot.session, dot.filled, &dot.verdict)?;
    short_number(out, b"</title><circle cx='", spot.x)?;
    short_number(out, b"' cy='", spot.y)?;
    extend(out, b"' r='7.5' stroke-width='1.5' stroke='")?;
    colour(out, dot.session)?;
    extend(out, b"' fill='")?;
    fill(out, dot)?;
    extend(out, b"'/>")?;
    text_at(out, spot.x, spot.y)?;
    extend(out, b" text-anchor='middle' font-size='10' fill='")?;
    ink(out, dot.filled)?;
    byte_number(out, b"'>", dot.session)?;
    extend(out, b"</text></g>")
}
