//! What a read of a key finds, in sentences.

ghost use Rattle.std.specs.Prelude.{◌≡◌, ◌++◌, OnOk, IfOk};
ghost use Rattle.svg_text.specs.Sentences.{numbered};
ghost use Rattle.shapes.specs.Pictures.{AddsText};
ghost use Rattle.stories.specs.Html.{escaped, html, version_html, versions_html, place_html, entry_html, entries_html, no_entry_html, explanation_html};
ghost use Rattle.stories.specs.Telling.{read_by, read_of, IsReadingOf, ExplainsKey, ExplainsRead, ExplainsLine};

use script_text::{Line, RefusedGrowth, extend, line_at, push, put_unsigned};
use session_core::{Engine, Step};
use std::alloc::Global;
use svg_text::tell_verdict;
use view_text::{EntryLook, VersionLook};
use viewing::explanation;

/// Adds words, and a number right behind them.
#[tactic(auto, unfolding(svg_text::specs::Sentences::numbered))]
fn number(out: &mut Vec<u8>, words: &[u8], n: u64) -> Result<(), RefusedGrowth>
    ensures { OnOk result (out.new.items ≡ out.old.items ++ numbered words.now n) }
{
    extend(out, words)?;
    put_unsigned(out, n)
}

/// The same of the number of a slot.
fn slot_number(out: &mut Vec<u8>, words: &[u8], slot: u16) -> Result<(), RefusedGrowth>
    ensures { OnOk result (out.new.items ≡ out.old.items ++ numbered words.now slot) }
{
    number(out, words, u64::from(slot))
}

/// The same of the number of a page.
fn page_number(out: &mut Vec<u8>, words: &[u8], page: u32) -> Result<(), RefusedGrowth>
    ensures { OnOk result (out.new.items ≡ out.old.items ++ numbered words.now page) }
{
    number(out, words, u64::from(page))
}

/// Adds a byte, spelled where HTML would read it.
fn escape_byte(out: &mut Vec<u8>, b: u8) -> Result<(), RefusedGrowth>
    ensures { OnOk result (out.new.items ≡ out.old.items ++ escaped b) }
{
    if b == b'<' {
        extend(out, b"&lt;")
    } else if b == b'>' {
        extend(out, b"&gt;")
    } else if b == b'&' {
        extend(out, b"&amp;")
    } else {
        push(out, b)
    }
}

/// Adds a text.
pub(crate) fn escape(out: &mut Vec<u8>, text: &[u8]) -> Result<(), RefusedGrowth>
    ensures { OnOk result (out.new.items ≡ out.old.items ++ html text.now) }
{
    for b in text {
        escape_byte(out, *b)?;
    }
    Ok(())
}

fn version(out: &mut Vec<u8>, s: u8, of: &VersionLook) -> Result<(), RefusedGrowth>
    ensures { OnOk result (out.new.items ≡ out.old.items ++ version_html s of.now) }
{
    slot_number(out, b"<p>Slot ", of.shown.slot)?;
    extend(out, b": ")?;
    tell_verdict(out, s, of.shown.verdict.shows(), &of.shown.verdict)?;
    extend(out, b"</p>")
}

fn versions(out: &mut Vec<u8>, s: u8, of: &[VersionLook]) -> Result<(), RefusedGrowth>
    ensures { OnOk result (out.new.items ≡ out.old.items ++ versions_html s of.now) }
{
    for one in of {
        version(out, s, one)?;
    }
    Ok(())
}

fn place(out: &mut Vec<u8>, key: u64, of: &EntryLook) -> Result<(), RefusedGrowth>
    ensures { OnOk result (out.new.items ≡ out.old.items ++ place_html key of.now) }
{
    number(out, b"<p>An entry of key ", key)?;
    slot_number(out, b" leads to slot ", of.place.slot)?;
    page_number(out, b" of page ", of.place.page)?;
    extend(out, b".</p>")
}

fn entry(out: &mut Vec<u8>, s: u8, key: u64, of: &EntryLook) -> Result<(), RefusedGrowth>
    ensures { OnOk result (out.new.items ≡ out.old.items ++ entry_html s key of.now) }
{
    place(out, key, of)?;
    versions(out, s, of.versions.as_slice())
}

fn entries(out: &mut Vec<u8>, s: u8, key: u64, of: &[EntryLook]) -> Result<(), RefusedGrowth>
    ensures { OnOk result (out.new.items ≡ out.old.items ++ entries_html s key of.now) }
{
    for one in of {
        entry(out, s, key, one)?;
    }
    Ok(())
}

fn no_entry(out: &mut Vec<u8>, key: u64) -> Result<(), RefusedGrowth>
    ensures { OnOk result (out.new.items ≡ out.old.items ++ no_entry_html key) }
{
    number(out, b"<p>No entry has key ", key)?;
    extend(out, b".</p>")
}

/// Adds a sentence for each entry of a key, and for each version to which it leads.
fn sentences(out: &mut Vec<u8>, s: u8, key: u64, of: &[EntryLook]) -> Result<(), RefusedGrowth>
    ensures { OnOk result (out.new.items ≡ out.old.items ++ explanation_html s key of.now) }
{
    if of.is_empty() {
        no_entry(out, key)
    } else {
        entries(out, s, key, of)
    }
}

/// Adds what a statement of a session, begun now, finds of a key, if the session is open.
fn explain(
    out: &mut Vec<u8>,
    alloc: Global,
    engine: &Engine,
    s: u8,
    key: u64,
) -> Result<(), RefusedGrowth>
    ensures { OnOk result
        (AddsText (ExplainsKey engine.now.engine.core s key) out.old.items out.new.items) }
{
    match engine.session(s) {
        Ok(_) => {
            let found = explanation(alloc, engine, s, key)?;
            sentences(out, s, key, found.as_slice())
        }
        Err(_) => Ok(()),
    }
}

/// The session and the key that a step reads, if it reads one.
fn read_by(step: &Step) -> Option<(u8, u64)>
    ensures { result ≡ read_by step.now }
{
    match step {
        Step::Get(s, key) => Some((*s, *key)),
        Step::Insert(s, row) => Some((*s, row.key)),
        Step::Update(s, row) => Some((*s, row.key)),
        Step::Delete(s, key) => Some((*s, *key)),
        _ => None,
    }
}

/// Those that a line reads.
fn read_of(line: &Line) -> Option<(u8, u64)>
    ensures { result ≡ read_of line.now }
{
    match line {
        Line::Do(step) => read_by(step),
        _ => None,
    }
}

/// Those of a line as it is spelled, if it is one of a script.
fn read_in(alloc: Global, line: &[u8]) -> Result<Option<(u8, u64)>, RefusedGrowth>
    ensures { IfOk result (λ read. IsReadingOf line.now read) }
{
    match line_at(alloc, line)? {
        Some(parsed) => Ok(read_of(&parsed)),
        None => Ok(None),
    }
}

/// Adds what is found of a key, if one is read.
fn explain_read(
    out: &mut Vec<u8>,
    alloc: Global,
    engine: &Engine,
    read: Option<(u8, u64)>,
) -> Result<(), RefusedGrowth>
    ensures { OnOk result
        (AddsText (ExplainsRead engine.now.engine.core read) out.old.items out.new.items) }
{
    match read {
        Some((s, key)) => explain(out, alloc, engine, s, key),
        None => Ok(()),
    }
}

/// Adds what a line finds, if it reads a key.
pub(crate) fn explain_line(
    out: &mut Vec<u8>,
    alloc: Global,
    engine: &Engine,
    line: &[u8],
) -> Result<(), RefusedGrowth>
    ensures { OnOk result
        (AddsText (ExplainsLine engine.now.engine.core line.now) out.old.items out.new.items) }
{
    let read = read_in(alloc, line)?;
    explain_read(out, alloc, engine, read)
}
