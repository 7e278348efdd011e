//! The reasons of a verdict as sentences.

ghost use Rattle.std.specs.Prelude.{◌≡◌, ◌++◌, OnOk};
ghost use Rattle.svg_text.specs.Sentences.{numbered, before_sentence, not_before_sentence, standing_sentence, parent_sentence, sighting_sentence, reason_sentence, touch_sentence, maker_sentence, deleter_sentence, sees_sentence, verdict_sentence};

use reasons::{Reason, Sighting, Touch, Verdict, XidStanding};
use script_text::{RefusedGrowth, extend, put_unsigned};
use xid_circle::Xid;

/// Adds words, and a number right behind them.
#[tactic(auto, unfolding(crate::specs::Sentences::numbered))]
pub(crate) fn number(out: &mut Vec<u8>, words: &[u8], n: u64) -> Result<(), RefusedGrowth>
    ensures { OnOk result (out.new.items ≡ out.old.items ++ numbered words.now n) }
{
    extend(out, words)?;
    put_unsigned(out, n)
}

/// The same of a number of 32 bits.
pub(crate) fn short_number(out: &mut Vec<u8>, words: &[u8], n: u32) -> Result<(), RefusedGrowth>
    ensures { OnOk result (out.new.items ≡ out.old.items ++ numbered words.now n) }
{
    number(out, words, u64::from(n))
}

/// The same of the number of a slot.
pub(crate) fn slot_number(out: &mut Vec<u8>, words: &[u8], slot: u16) -> Result<(), RefusedGrowth>
    ensures { OnOk result (out.new.items ≡ out.old.items ++ numbered words.now slot) }
{
    number(out, words, u64::from(slot))
}

/// The same of a byte.
pub(crate) fn byte_number(out: &mut Vec<u8>, words: &[u8], n: u8) -> Result<(), RefusedGrowth>
    ensures { OnOk result (out.new.items ≡ out.old.items ++ numbered words.now n) }
{
    number(out, words, u64::from(n))
}

/// The same of an id.
pub(crate) fn id_number(out: &mut Vec<u8>, words: &[u8], x: Xid) -> Result<(), RefusedGrowth>
    ensures { OnOk result (out.new.items ≡ out.old.items ++ numbered words.now x.0) }
{
    number(out, words, u64::from(x.0))
}

fn before(out: &mut Vec<u8>, limit: Xid) -> Result<(), RefusedGrowth>
    ensures { OnOk result (out.new.items ≡ out.old.items ++ before_sentence limit.0) }
{
    id_number(out, b"before ", limit)?;
    extend(
        out,
        b", and all before that had ended when the snapshot was taken",
    )
}

fn not_before(out: &mut Vec<u8>, limit: Xid) -> Result<(), RefusedGrowth>
    ensures { OnOk result (out.new.items ≡ out.old.items ++ not_before_sentence limit.0) }
{
    id_number(out, b"not before ", limit)?;
    extend(out, b", the next id when the snapshot was taken")
}

fn standing(out: &mut Vec<u8>, standing: XidStanding) -> Result<(), RefusedGrowth>
    ensures { OnOk result (out.new.items ≡ out.old.items ++ standing_sentence standing) }
{
    match standing {
        XidStanding::Before(limit) => before(out, limit),
        XidStanding::NotBefore(limit) => not_before(out, limit),
        XidStanding::Listed => extend(out, b"listed as in progress when the snapshot was taken"),
        XidStanding::Unlisted => extend(
            out,
            b"not listed as in progress when the snapshot was taken",
        ),
    }
}

fn parent(out: &mut Vec<u8>, top: Xid, of: XidStanding) -> Result<(), RefusedGrowth>
    ensures { OnOk result (out.new.items ≡ out.old.items ++ parent_sentence top.0 of) }
{
    id_number(out, b": its topmost parent ", top)?;
    extend(out, b" is ")?;
    standing(out, of)
}

fn sighting(out: &mut Vec<u8>, sight: Sighting) -> Result<(), RefusedGrowth>
    ensures { OnOk result (out.new.items ≡ out.old.items ++ sighting_sentence sight) }
{
    match sight {
        Sighting::ByItself(of) => {
            extend(out, b": it is ")?;
            standing(out, of)
        }
        Sighting::ByParent(top, of) => parent(out, top, of),
    }
}

fn reason(out: &mut Vec<u8>, reason: Reason) -> Result<(), RefusedGrowth>
    ensures { OnOk result (out.new.items ≡ out.old.items ++ reason_sentence reason) }
{
    match reason {
        Reason::Own => extend(out, b", an id of its own"),
        Reason::Forgotten => extend(out, b", which is not remembered"),
        Reason::Running => extend(out, b", which is in progress"),
        Reason::Aborted => extend(out, b", which was rolled back"),
        Reason::Committed(sight) => {
            extend(out, b", which has committed")?;
            sighting(out, sight)
        }
    }
}

fn touch(out: &mut Vec<u8>, touch: &Touch) -> Result<(), RefusedGrowth>
    ensures { OnOk result (out.new.items ≡ out.old.items ++ touch_sentence touch.now) }
{
    id_number(out, b"by ", touch.id)?;
    reason(out, touch.reason)
}

fn maker(out: &mut Vec<u8>, by: Option<Touch>) -> Result<(), RefusedGrowth>
    ensures { OnOk result (out.new.items ≡ out.old.items ++ maker_sentence by) }
{
    match by {
        None => extend(out, b" It is frozen."),
        Some(by) => {
            extend(out, b" Made ")?;
            touch(out, &by)?;
            extend(out, b".")
        }
    }
}

fn deleter(out: &mut Vec<u8>, by: Option<Touch>) -> Result<(), RefusedGrowth>
    ensures { OnOk result (out.new.items ≡ out.old.items ++ deleter_sentence by) }
{
    match by {
        None => extend(out, b" Nobody deleted it."),
        Some(by) => {
            extend(out, b" Deleted ")?;
            touch(out, &by)?;
            extend(out, b".")
        }
    }
}

fn sees(out: &mut Vec<u8>, seen: bool) -> Result<(), RefusedGrowth>
    ensures { OnOk result (out.new.items ≡ out.old.items ++ sees_sentence seen) }
{
    if seen {
        extend(out, b" sees it.")
    } else {
        extend(out, b" does not see it.")
    }
}

/// Adds whether a session sees a version, and why.
pub fn tell_verdict(
    out: &mut Vec<u8>,
    session: u8,
    seen: bool,
    verdict: &Verdict,
) -> Result<(), RefusedGrowth>
    ensures { OnOk result
        (out.new.items ≡ out.old.items ++ verdict_sentence session seen verdict.now) }
{
    byte_number(out, b"Session ", session)?;
    sees(out, seen)?;
    maker(out, verdict.maker)?;
    deleter(out, verdict.deleter)
}
