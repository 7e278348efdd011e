//! The text of an explanation: the entries of a key, and the versions of the chain of each, with their reasons.

ghost use Rattle.std.specs.Prelude.{◌≡◌, ◌∷◌, ◌++◌, OnOk};
ghost use Rattle.script_text.specs.Grammar.{spaced, with_feed};
ghost use Rattle.view_text.specs.Answers.{standing_text, sighting_text, seen_text, running_text, reason_text, touch_text, verdict_text, version_text, version_lines, leads_text, explained_text, explained_lines, explanation_text};

use explanations::ShownVersion;
use reasons::{Reason, Sighting, Touch, XidStanding};
use script_text::{RefusedGrowth, extend, label, push, put_unsigned, spaced_number};
use slot_fates::SlotFate;
use xid_circle::Tid;

/// A version of a chain, why a session sees it, or does not, and the sessions that have the ids of its maker and its deleter, if any have.
#[derive(Clone, Copy, Debug, PartialEq, Eq)]
pub struct VersionLook {
    /// Its slot and its verdict.
    pub shown: ShownVersion,
    /// The session that has its maker's id.
    pub maker_session: Option<u8>,
    /// The session that has its deleter's id.
    pub deleter_session: Option<u8>,
}

/// An entry of a key, and the versions of the chain to which it leads.
#[derive(Debug, Drop)]
pub struct EntryLook {
    /// Where it leads.
    pub place: Tid,
    /// The fate of what stands there, if the page is in use.
    pub leads: Option<SlotFate>,
    /// The versions of the chain there, in its order.
    pub versions: Vec<VersionLook>,
}

fn standing(out: &mut Vec<u8>, standing: XidStanding) -> Result<(), RefusedGrowth>
    ensures { OnOk result (out.new.items ≡ out.old.items ++ standing_text standing) }
{
    match standing {
        XidStanding::Before(x) => label(out, b"before", u64::from(x.0)),
        XidStanding::NotBefore(x) => label(out, b"not before", u64::from(x.0)),
        XidStanding::Listed => extend(out, b"listed"),
        XidStanding::Unlisted => extend(out, b"unlisted"),
    }
}

fn sighting(out: &mut Vec<u8>, sight: Sighting) -> Result<(), RefusedGrowth>
    ensures { OnOk result (out.new.items ≡ out.old.items ++ sighting_text sight) }
{
    match sight {
        Sighting::ByItself(stands) => standing(out, stands),
        Sighting::ByParent(top, stands) => {
            label(out, b"parent", u64::from(top.0))?;
            push(out, b' ')?;
            standing(out, stands)
        }
    }
}

fn sight(out: &mut Vec<u8>, is_seen: bool) -> Result<(), RefusedGrowth>
    ensures { OnOk result (out.new.items ≡ out.old.items ++ seen_text is_seen) }
{
    if is_seen {
        extend(out, b"seen")
    } else {
        extend(out, b"unseen")
    }
}

// In progress, and the session that has the id.
pub(crate) fn running(out: &mut Vec<u8>, owner: Option<u8>) -> Result<(), RefusedGrowth>
    ensures { OnOk result (out.new.items ≡ out.old.items ++ running_text owner) }
{
    match owner {
        None => extend(out, b"running"),
        Some(s) => label(out, b"running", u64::from(s)),
    }
}

fn reason(out: &mut Vec<u8>, owner: Option<u8>, why: Reason) -> Result<(), RefusedGrowth>
    ensures { OnOk result (out.new.items ≡ out.old.items ++ reason_text owner why) }
{
    match why {
        Reason::Own => extend(out, b"own"),
        Reason::Forgotten => extend(out, b"forgotten"),
        Reason::Running => running(out, owner),
        Reason::Aborted => extend(out, b"aborted"),
        Reason::Committed(sees) => {
            sight(out, sees.is_seen())?;
            push(out, b' ')?;
            sighting(out, sees)
        }
    }
}

// The id that made or deleted a version and its reason, or a word where there is none.
fn touch(
    out: &mut Vec<u8>,
    none: &[u8],
    owner: Option<u8>,
    touch: Option<Touch>,
) -> Result<(), RefusedGrowth>
    ensures { OnOk result (out.new.items ≡ out.old.items ++ touch_text none.now owner touch) }
{
    match touch {
        None => extend(out, none),
        Some(by) => {
            put_unsigned(out, u64::from(by.id.0))?;
            push(out, b' ')?;
            reason(out, owner, by.reason)
        }
    }
}

fn verdict(out: &mut Vec<u8>, is_seen: bool) -> Result<(), RefusedGrowth>
    ensures { OnOk result (out.new.items ≡ out.old.items ++ spaced (verdict_text is_seen)) }
{
    if is_seen {
        extend(out, b" seen")
    } else {
        extend(out, b" hidden")
    }
}

fn version(out: &mut Vec<u8>, page: u32, one: &VersionLook) -> Result<(), RefusedGrowth>
    ensures { OnOk result (out.new.items ≡ out.old.items ++ version_text page one.now) }
{
    label(out, b"version", u64::from(page))?;
    spaced_number(out, u64::from(one.shown.slot))?;
    verdict(out, one.shown.verdict.shows())?;
    extend(out, b" maker ")?;
    touch(out, b"frozen", one.maker_session, one.shown.verdict.maker)?;
    extend(out, b" deleter ")?;
    touch(out, b"none", one.deleter_session, one.shown.verdict.deleter)
}

// A line feed, and then the line of a version.
fn version_line(out: &mut Vec<u8>, page: u32, one: &VersionLook) -> Result<(), RefusedGrowth>
    ensures { OnOk result (out.new.items ≡ out.old.items ++ 10 ∷ version_text page one.now) }
{
    push(out, b'\n')?;
    version(out, page, one)
}

fn versions(out: &mut Vec<u8>, page: u32, versions: &[VersionLook]) -> Result<(), RefusedGrowth>
    ensures { OnOk result (out.new.items ≡ out.old.items ++ version_lines page versions.now) }
{
    for one in versions {
        version_line(out, page, one)?;
    }
    Ok(())
}

// What an entry leads to.
fn leads(out: &mut Vec<u8>, to: Option<SlotFate>) -> Result<(), RefusedGrowth>
    ensures { OnOk result (out.new.items ≡ out.old.items ++ leads_text to) }
{
    match to {
        None | Some(SlotFate::NoSlot) => extend(out, b"nowhere"),
        Some(SlotFate::Unused) => extend(out, b"unused"),
        Some(SlotFate::Dead) => extend(out, b"dead"),
        Some(SlotFate::Redirect(target)) => label(out, b"redirect", u64::from(target)),
        Some(SlotFate::Version(_)) => extend(out, b"root"),
    }
}

fn entry(out: &mut Vec<u8>, one: &EntryLook) -> Result<(), RefusedGrowth>
    ensures { OnOk result (out.new.items ≡ out.old.items ++ explained_text one.now) }
{
    label(out, b"entry", u64::from(one.place.page))?;
    spaced_number(out, u64::from(one.place.slot))?;
    push(out, b' ')?;
    leads(out, one.leads)?;
    versions(out, one.place.page, one.versions.as_slice())
}

// A line feed, and then the lines of an entry.
fn entry_line(out: &mut Vec<u8>, one: &EntryLook) -> Result<(), RefusedGrowth>
    ensures { OnOk result (out.new.items ≡ out.old.items ++ 10 ∷ explained_text one.now) }
{
    push(out, b'\n')?;
    entry(out, one)
}

fn entries(out: &mut Vec<u8>, entries: &[EntryLook]) -> Result<(), RefusedGrowth>
    ensures { OnOk result (out.new.items ≡ out.old.items ++ explained_lines entries.now) }
{
    for one in entries {
        entry_line(out, one)?;
    }
    Ok(())
}

/// Adds the lines of an explanation. There is one of the session and the key, and one of each entry. Behind that of an entry stands
/// one of each version of the chain to which the entry leads.
pub fn tell_explanation(
    out: &mut Vec<u8>,
    s: u8,
    key: u64,
    looks: &[EntryLook],
) -> Result<(), RefusedGrowth>
    ensures { OnOk result
        (out.new.items ≡ out.old.items ++ with_feed (explanation_text s key looks.now)) }
{
    label(out, b"explain", u64::from(s))?;
    spaced_number(out, key)?;
    label(out, b" entries", looks.len() as u64)?;
    entries(out, looks)?;
    push(out, b'\n')
}
