//! The text of the ids, the horizon and the next id.

ghost use Rattle.std.specs.Prelude.{◌≡◌, ◌++◌, OnOk};
ghost use Rattle.svg_text.specs.Svg.{status_words, owner_words, ring_svg, cross_svg, id_ring, owner_number, owner_svg, id_svg, some_older_words, older_words, ids_svg, holder_words, horizon_svg, next_svg};

use crate::parts::text_at;
use crate::sentences::{byte_number, id_number, number, short_number};
use commit_status::Status;
use picture_layout::Spot;
use script_text::{RefusedGrowth, extend};
use shape_list::{HorizonShape, IdShape};
use xid_circle::Xid;

fn status(out: &mut Vec<u8>, status: Status) -> Result<(), RefusedGrowth>
    ensures { OnOk result (out.new.items ≡ out.old.items ++ status_words status) }
{
    match status {
        Status::InProgress => extend(out, b"in progress"),
        Status::Committed => extend(out, b"committed"),
        Status::Aborted => extend(out, b"rolled back"),
    }
}

fn owner(out: &mut Vec<u8>, owner: Option<u8>) -> Result<(), RefusedGrowth>
    ensures { OnOk result (out.new.items ≡ out.old.items ++ owner_words owner) }
{
    match owner {
        None => Ok(()),
        Some(s) => byte_number(out, b", of session ", s),
    }
}

fn ring(out: &mut Vec<u8>, status: Status) -> Result<(), RefusedGrowth>
    ensures { OnOk result (out.new.items ≡ out.old.items ++ ring_svg status) }
{
    match status {
        Status::InProgress => extend(out, b"' r='6' fill='#fff' stroke='#333' stroke-width='2'/>"),
        Status::Committed => extend(out, b"' r='6' fill='#333' stroke='#333' stroke-width='2'/>"),
        Status::Aborted => extend(out, b"' r='6' fill='#fff' stroke='#a00' stroke-width='2'/>"),
    }
}

fn cross(out: &mut Vec<u8>, spot: &Spot, status: Status) -> Result<(), RefusedGrowth>
    ensures { OnOk result (out.new.items ≡ out.old.items ++ cross_svg spot.now status) }
{
    match status {
        Status::InProgress => Ok(()),
        Status::Committed => Ok(()),
        Status::Aborted => {
            short_number(out, b"<path d='M", spot.x)?;
            short_number(out, b" ", spot.y)?;
            extend(
                out,
                b"m-4 -4l8 8m0 -8l-8 8' stroke='#a00' stroke-width='2'/>",
            )
        }
    }
}

#[tactic(auto, unfolding(crate::specs::Svg::id_ring))]
fn id_ring(out: &mut Vec<u8>, spot: &Spot, id: &IdShape) -> Result<(), RefusedGrowth>
    ensures { OnOk result (out.new.items ≡ out.old.items ++ id_ring spot.now id.now) }
{
    id_number(out, b"<g><title>id ", id.id)?;
    extend(out, b": ")?;
    status(out, id.status)?;
    owner(out, id.owner)?;
    short_number(out, b"</title><circle cx='", spot.x)?;
    short_number(out, b"' cy='", spot.y)?;
    ring(out, id.status)?;
    cross(out, spot, id.status)?;
    extend(out, b"</g>")
}

fn owner_number(out: &mut Vec<u8>, spot: &Spot, s: u8) -> Result<(), RefusedGrowth>
    ensures { OnOk result (out.new.items ≡ out.old.items ++ owner_number spot.now s) }
{
    text_at(out, spot.x, spot.lane)?;
    byte_number(
        out,
        b" text-anchor='middle' font-size='10' fill='#666'>session ",
        s,
    )?;
    extend(out, b"</text>")
}

fn owner_below(out: &mut Vec<u8>, spot: &Spot, owner: Option<u8>) -> Result<(), RefusedGrowth>
    ensures { OnOk result (out.new.items ≡ out.old.items ++ owner_svg spot.now owner) }
{
    match owner {
        None => Ok(()),
        Some(s) => owner_number(out, spot, s),
    }
}

pub(crate) fn id(out: &mut Vec<u8>, spot: &Spot, id: &IdShape) -> Result<(), RefusedGrowth>
    ensures { OnOk result (out.new.items ≡ out.old.items ++ id_svg spot.now id.now) }
{
    id_ring(out, spot, id)?;
    text_at(out, spot.x, spot.to)?;
    id_number(out, b" text-anchor='middle'>", id.id)?;
    extend(out, b"</text>")?;
    owner_below(out, spot, id.owner)
}

fn some_older(out: &mut Vec<u8>, left_out: u64) -> Result<(), RefusedGrowth>
    ensures { OnOk result (out.new.items ≡ out.old.items ++ some_older_words left_out) }
{
    number(out, b" fill='#666'>ids, but for ", left_out)?;
    extend(out, b" older ones</text>")
}

// How many ids are left out.
fn older(out: &mut Vec<u8>, left_out: u64) -> Result<(), RefusedGrowth>
    ensures { OnOk result (out.new.items ≡ out.old.items ++ older_words left_out) }
{
    if left_out == 0 {
        extend(out, b" fill='#666'>ids</text>")
    } else {
        some_older(out, left_out)
    }
}

/// Adds the head of the line of ids, of which so many are left out.
pub(crate) fn ids(out: &mut Vec<u8>, spot: &Spot, left_out: u64) -> Result<(), RefusedGrowth>
    ensures { OnOk result (out.new.items ≡ out.old.items ++ ids_svg spot.now left_out) }
{
    text_at(out, spot.x, spot.y)?;
    older(out, left_out)
}

fn holder(out: &mut Vec<u8>, holder: Option<u8>) -> Result<(), RefusedGrowth>
    ensures { OnOk result (out.new.items ≡ out.old.items ++ holder_words holder) }
{
    match holder {
        None => Ok(()),
        Some(s) => byte_number(out, b", held back by session ", s),
    }
}

pub(crate) fn horizon(
    out: &mut Vec<u8>,
    spot: &Spot,
    horizon: &HorizonShape,
) -> Result<(), RefusedGrowth>
    ensures { OnOk result (out.new.items ≡ out.old.items ++ horizon_svg spot.now horizon.now) }
{
    short_number(out, b"<path d='M", spot.x)?;
    short_number(out, b" ", spot.y)?;
    extend(out, b"v32' stroke='#a00' stroke-width='2'/>")?;
    text_at(out, spot.x, spot.y)?;
    id_number(out, b" dx='4' fill='#a00'>horizon ", horizon.horizon)?;
    holder(out, horizon.holder)?;
    extend(out, b"</text>")
}

pub(crate) fn next(out: &mut Vec<u8>, spot: &Spot, next: Xid) -> Result<(), RefusedGrowth>
    ensures { OnOk result (out.new.items ≡ out.old.items ++ next_svg spot.now next.0) }
{
    short_number(out, b"<path d='M", spot.x)?;
    short_number(out, b" ", spot.y)?;
    extend(
        out,
        b"v20' stroke='#666' stroke-width='2' stroke-dasharray='3 3'/>",
    )?;
    text_at(out, spot.x, spot.to)?;
    id_number(out, b" dx='6' fill='#666'>next ", next)?;
    extend(out, b"</text>")
}
