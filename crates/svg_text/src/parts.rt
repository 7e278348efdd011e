//! Parts of elements.

ghost use Rattle.std.specs.Prelude.{◌≡◌, ◌++◌, ◌%◌, OnOk};
ghost use Rattle.std.specs.Fmt.{signed_decimal};
ghost use Rattle.svg_text.specs.Sentences.{numbered};
ghost use Rattle.svg_text.specs.Svg.{text_at, word_at, session_colour};

use crate::sentences::short_number;
use itoa::Buffer;
use script_text::{RefusedGrowth, extend};

/// Adds the beginning of a text at a place.
#[tactic(auto, unfolding(crate::specs::Svg::text_at))]
pub(crate) fn text_at(out: &mut Vec<u8>, x: u32, y: u32) -> Result<(), RefusedGrowth>
    ensures { OnOk result (out.new.items ≡ out.old.items ++ text_at x y) }
{
    short_number(out, b"<text x='", x)?;
    short_number(out, b"' y='", y)?;
    extend(out, b"' dy='4'")
}

/// The same, of a word in a box.
#[tactic(auto, unfolding(crate::specs::Svg::word_at))]
pub(crate) fn word_at(out: &mut Vec<u8>, x: u32, y: u32) -> Result<(), RefusedGrowth>
    ensures { OnOk result (out.new.items ≡ out.old.items ++ word_at x y) }
{
    text_at(out, x, y)?;
    extend(out, b">")
}

/// Adds a number with its sign.
pub(crate) fn signed_number(out: &mut Vec<u8>, n: i128) -> Result<(), RefusedGrowth>
    ensures { OnOk result (out.new.items ≡ out.old.items ++ signed_decimal n) }
{
    let mut buffer = Buffer::new();
    extend(out, buffer.format(n).as_bytes())
}

/// Adds the colour of a session.
pub(crate) fn colour(out: &mut Vec<u8>, s: u8) -> Result<(), RefusedGrowth>
    ensures { OnOk result (out.new.items ≡ out.old.items ++ session_colour s) }
{
    match s % 8 {
        0 => extend(out, b"#1f5fa8"),
        1 => extend(out, b"#b5470f"),
        2 => extend(out, b"#1f7a45"),
        3 => extend(out, b"#7a3f99"),
        4 => extend(out, b"#8a6500"),
        5 => extend(out, b"#a3195b"),
        6 => extend(out, b"#00707d"),
        _ => extend(out, b"#444444"),
    }
}
