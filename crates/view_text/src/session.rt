//! The text of a session: what it holds.

ghost use Rattle.std.specs.Prelude.{◌≡◌, ◌∷◌, ◌++◌, OnOk, option_copied};
ghost use Rattle.commit_status.specs.Changes.{numbers};
ghost use Rattle.script_text.specs.Grammar.{with_feed};
ghost use Rattle.view_text.specs.Answers.{numbers_text, kind_text, state_text, overflowed_text, snapshot_text, cursor_text, waits_text, session_head, session_rest, session_text};

use script_text::{RefusedGrowth, extend, label, push, spaced_number};
use session_steps::{Session, SessionIsolation};
use snapshot::Snapshot;
use table_scans::{CursorScan, Scan};
use xid_circle::Xid;

fn listed_ids(out: &mut Vec<u8>, listed: &[u32]) -> Result<(), RefusedGrowth>
    ensures { OnOk result (out.new.items ≡ out.old.items ++ numbers_text listed.now) }
{
    for x in listed {
        spaced_number(out, u64::from(*x))?;
    }
    Ok(())
}

fn own_ids(out: &mut Vec<u8>, ids: &[Xid]) -> Result<(), RefusedGrowth>
    ensures { OnOk result (out.new.items ≡ out.old.items ++ numbers_text (numbers ids.now)) }
{
    for x in ids {
        spaced_number(out, u64::from(x.0))?;
    }
    Ok(())
}

fn kind(out: &mut Vec<u8>, isolation: &SessionIsolation) -> Result<(), RefusedGrowth>
    ensures { OnOk result (out.new.items ≡ out.old.items ++ kind_text isolation.now) }
{
    match isolation {
        SessionIsolation::BySnapshot(_) => extend(out, b" snapshot"),
        SessionIsolation::ByStatement(_) => extend(out, b" statement"),
    }
}

fn state(out: &mut Vec<u8>, failed: bool) -> Result<(), RefusedGrowth>
    ensures { OnOk result (out.new.items ≡ out.old.items ++ state_text failed) }
{
    if failed {
        extend(out, b" failed")
    } else {
        extend(out, b" ready")
    }
}

fn overflow(out: &mut Vec<u8>, is_overflowed: bool) -> Result<(), RefusedGrowth>
    ensures { OnOk result (out.new.items ≡ out.old.items ++ overflowed_text is_overflowed) }
{
    if is_overflowed {
        extend(out, b" overflowed")
    } else {
        Ok(())
    }
}

fn snapshot(out: &mut Vec<u8>, kept: Option<&Snapshot>, listed: &[u32]) -> Result<(), RefusedGrowth>
    ensures { OnOk result
        (out.new.items ≡ out.old.items ++ snapshot_text (option_copied kept.entry) listed.now) }
{
    match kept {
        None => extend(out, b"snapshot none"),
        Some(snap) => {
            label(out, b"snapshot", u64::from(snap.xmin().0))?;
            spaced_number(out, u64::from(snap.xmax().0))?;
            overflow(out, snap.is_overflowed())?;
            label(out, b" listed", listed.len() as u64)?;
            listed_ids(out, listed)
        }
    }
}

fn cursor(out: &mut Vec<u8>, scan: &Option<CursorScan>) -> Result<(), RefusedGrowth>
    ensures { OnOk result (out.new.items ≡ out.old.items ++ cursor_text scan.now) }
{
    match scan {
        None => extend(out, b"cursor none"),
        Some(CursorScan::Rows(Scan::Index(_))) => extend(out, b"cursor index"),
        Some(CursorScan::Rows(Scan::Heap(_))) => extend(out, b"cursor heap"),
        Some(CursorScan::Keys(_)) => extend(out, b"cursor keys"),
    }
}

fn waits(out: &mut Vec<u8>, other: Option<u8>) -> Result<(), RefusedGrowth>
    ensures { OnOk result (out.new.items ≡ out.old.items ++ waits_text other) }
{
    match other {
        None => extend(out, b"waits none"),
        Some(s) => label(out, b"waits", u64::from(s)),
    }
}

// The session's own line.
fn head(out: &mut Vec<u8>, s: u8, session: &Session) -> Result<(), RefusedGrowth>
    ensures { OnOk result (out.new.items ≡ out.old.items ++ session_head s session.now) }
{
    label(out, b"session", u64::from(s))?;
    kind(out, &session.isolation)?;
    state(out, session.failed)?;
    label(out, b" savepoints", session.own.savepoints() as u64)
}

// Behind the snapshot: its own ids, its cursor, and for whom it waits, each on a line.
fn rest(out: &mut Vec<u8>, session: &Session, other: Option<u8>) -> Result<(), RefusedGrowth>
    ensures { OnOk result (out.new.items ≡ out.old.items ++ session_rest session.now other) }
{
    extend(out, b"\nids")?;
    own_ids(out, session.own.as_slice())?;
    push(out, b'\n')?;
    cursor(out, &session.cursor)?;
    push(out, b'\n')?;
    waits(out, other)
}

/// Adds the lines of a session. They tell how it reads and stands, the snapshot that it keeps, its own ids, its cursor, and for whom it
/// waits. With the snapshot stand the ids that are listed, in this order.
pub fn tell_session(
    out: &mut Vec<u8>,
    s: u8,
    session: &Session,
    listed: &[u32],
    other: Option<u8>,
) -> Result<(), RefusedGrowth>
    ensures { OnOk result
        (out.new.items
        ≡ out.old.items ++ with_feed (session_text s session.now listed.now other)) }
{
    head(out, s, session)?;
    push(out, b'\n')?;
    snapshot(out, session.isolation.lasting_snapshot(), listed)?;
    rest(out, session, other)?;
    push(out, b'\n')
}
