//! The story of a script.

ghost use Rattle.std.specs.Prelude.{◌≡◌, ◌++◌, [], OnOk, IfSome, IfErr};
ghost use Rattle.std.specs.Io.KnownBytes.{Appends};
ghost use Rattle.stories.specs.Outcomes.{page_html, TellsAll, EndsHere, WritesPage, TellsFrom, StoryOutcome, IsStoryCaused};

use crate::beginning::first_of;
use crate::draw_fault::{DrawFault, no_memory};
use crate::fault::StoryFault;
use crate::lines::next_of;
use crate::page::{BEGINNING, END, MIDDLE};
use crate::telling::{tell_first, tell_line};
use script::{Front, IoLog, Pending, ShellFault, close};
use script_text::{RefusedGrowth, extend};
use session_core::{Engine, Reply};
use std::alloc::Global;
use std::io::{Read, Write};

/// How many lines a story has at most.
pub const MOST_LINES: u32 = 2000;

/// Sees to it that nothing is left of the script.
fn ends_here<R: Read, W: Write>(
    alloc: Global,
    log: &mut IoLog<R, W>,
    pending: &mut Pending,
    reader: &mut R,
    writer: &mut W,
) -> Result<(), StoryFault>
    ensures ends { IfSome (R.remaining reader.old)
        (λ input. EndsHere (pending.old ++ input) result) }
    ensures quiet { Appends (W.contents writer.old) (W.contents writer.new) [] }
    ensures caused { IfErr result (λ e. IsStoryCaused e log.new) }
{
    let next = match next_of(alloc, log, pending, reader, writer) {
        Ok(next) => next,
        Err(fault) => return Err(StoryFault::Drawing(fault)),
    };
    match next {
        Front::Line(_) => Err(StoryFault::TooManyLines),
        Front::Bad => Err(StoryFault::TooManyLines),
        Front::End => Ok(()),
    }
}

/// The fault of a line that is none.
fn bad_line(number: u64) -> StoryFault
    ensures { result ≡ StoryFault.Drawing (DrawFault.Script (ShellFault.BadLine number)) }
{
    StoryFault::Drawing(DrawFault::Script(ShellFault::BadLine(number)))
}

/// Tells the lines behind the first, up to the end of the script.
fn tell_lines<R: Read, W: Write>(
    alloc: Global,
    log: &mut IoLog<R, W>,
    engine: &mut Engine,
    pending: &mut Pending,
    reader: &mut R,
    reply: &mut Reply,
    answer: &mut Vec<u8>,
    items: &mut Vec<u8>,
    told: &mut Vec<u8>,
    writer: &mut W,
) -> Result<(), StoryFault>
    ensures tells { IfSome (R.remaining reader.old)
        (λ input. TellsAll engine.old engine.new items.old.items items.new.items
        told.old.items told.new.items (pending.old ++ input) result) }
    ensures quiet { Appends (W.contents writer.old) (W.contents writer.new) [] }
    ensures caused { IfErr result (λ e. IsStoryCaused e log.new) }
{
    for done in 0..MOST_LINES - 1 {
        let next = match next_of(alloc, log, pending, reader, writer) {
            Ok(next) => next,
            Err(fault) => return Err(StoryFault::Drawing(fault)),
        };
        let number = u64::from(done) + 2;
        let n = match next {
            Front::Line(n) => n,
            Front::Bad => return Err(bad_line(number)),
            Front::End => return Ok(()),
        };
        let line = &pending.as_slice()[..n];
        match tell_line(items, told, alloc, engine, reply, answer, line) {
            Ok(true) => {}
            Ok(false) => return Err(bad_line(number)),
            Err(fault) => return Err(StoryFault::Drawing(fault)),
        }
        pending.consume(n + 1);
    }
    ends_here(alloc, log, pending, reader, writer)
}

/// Puts a page together, of the lines and what is told of them.
fn put_together(page: &mut Vec<u8>, items: &[u8], told: &[u8]) -> Result<(), RefusedGrowth>
    ensures { OnOk result (page.new.items ≡ page.old.items ++ page_html items.now told.now) }
{
    extend(page, BEGINNING)?;
    extend(page, items)?;
    extend(page, MIDDLE)?;
    extend(page, told)?;
    extend(page, END)
}

/// Writes the page.
fn write_page<R, W: Write>(
    log: &mut IoLog<R, W>,
    page: &mut Vec<u8>,
    writer: &mut W,
    items: &[u8],
    told: &[u8],
) -> Result<(), StoryFault>
    requires { page.old.items ≡ [] }
    ensures writes { WritesPage (page_html items.now told.now)
        (W.contents writer.old) (W.contents writer.new) result }
    ensures caused { IfErr result (λ e. IsStoryCaused e log.new) }
{
    match put_together(page, items, told) {
        Ok(()) => {}
        Err(refused) => return Err(StoryFault::Drawing(no_memory(refused))),
    }
    match close(log, page, writer, Ok(())) {
        Ok(()) => Ok(()),
        Err(fault) => Err(StoryFault::Drawing(DrawFault::Script(fault))),
    }
}

/// Tells all lines, and writes the page.
fn tell_from<R: Read, W: Write>(
    alloc: Global,
    log: &mut IoLog<R, W>,
    engine: &mut Engine,
    pending: &mut Pending,
    reader: &mut R,
    reply: &mut Reply,
    answer: &mut Vec<u8>,
    items: &mut Vec<u8>,
    told: &mut Vec<u8>,
    writer: &mut W,
    line: &[u8],
) -> Result<(), StoryFault>
    requires { (items.old.items ≡ []) × (told.old.items ≡ []) }
    ensures told { IfSome (R.remaining reader.old)
        (λ input. TellsFrom engine.old line.now (pending.old ++ input)
        (W.contents writer.old) (W.contents writer.new) result) }
    ensures caused { IfErr result (λ e. IsStoryCaused e log.new) }
{
    match tell_first(items, told, alloc, engine, line) {
        Ok(()) => {}
        Err(fault) => return Err(StoryFault::Drawing(fault)),
    }
    match tell_lines(
        alloc, log, engine, pending, reader, reply, answer, items, told, writer,
    ) {
        Ok(()) => {}
        Err(fault) => return Err(fault),
    }
    answer.clear();
    write_page(log, answer, writer, items.as_slice(), told.as_slice())
}

fn tell_logged<R: Read, W: Write>(
    alloc: Global,
    log: &mut IoLog<R, W>,
    reader: &mut R,
    writer: &mut W,
) -> Result<(), StoryFault>
    ensures outcome { IfSome (R.remaining reader.old)
        (λ input. StoryOutcome result input (W.contents writer.old) (W.contents writer.new)) }
    ensures caused { IfErr result (λ e. IsStoryCaused e log.new) }
{
    let mut line = Vec::new(alloc);
    let mut answer = Vec::new(alloc);
    let mut items = Vec::new(alloc);
    let mut told = Vec::new(alloc);
    let mut pending = match Pending::new(alloc) {
        Ok(pending) => pending,
        Err(refused) => return Err(StoryFault::Drawing(no_memory(refused))),
    };
    let mut engine = match first_of(alloc, log, &mut pending, reader, &mut line, writer) {
        Ok(engine) => engine,
        Err(fault) => return Err(StoryFault::Drawing(fault)),
    };
    let mut reply = Reply::Done;
    tell_from(
        alloc,
        log,
        &mut engine,
        &mut pending,
        reader,
        &mut reply,
        &mut answer,
        &mut items,
        &mut told,
        writer,
        line.as_slice(),
    )
}

/// Reads a script with looks, and writes its story: a page of HTML that needs nothing else. A script has at most 2,000 lines, and a table
/// at most 64 pages in use behind each of them. Where there is a fault nothing is written, but by a writer that gives up.
pub fn tell_story<R: Read, W: Write>(
    alloc: Global,
    reader: &mut R,
    writer: &mut W,
) -> (Result<(), StoryFault>, IoLog<R, W>)
    ensures outcome { IfSome (R.remaining reader.old)
        (λ input. StoryOutcome result.0 input (W.contents writer.old) (W.contents writer.new)) }
    ensures caused { IfErr result.0 (λ e. IsStoryCaused e result.1) }
{
    let mut log = IoLog::new();
    let told = tell_logged(alloc, &mut log, reader, writer);
    (told, log)
}
