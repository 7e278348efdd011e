//! The picture of a script.

ghost use Rattle.std.specs.Prelude.{◌≡◌, ◌++◌, [], IfSome, IfErr};
ghost use Rattle.stories.specs.DrawOutcomes.{WritesPicture, DrawsFrom, DrawOutcome, IsDrawCaused};

use crate::draw_fault::{DrawFault, fault_of, no_memory};
use crate::lines::do_lines;
use script::{IoLog, Pending, close, first_line};
use session_core::{Engine, Reply};
use shapes::draw_asked;
use std::alloc::Global;
use std::io::{Read, Write};

/// Draws the table, and writes the picture.
fn write_picture<R: Read, W: Write>(
    alloc: Global,
    log: &mut IoLog<R, W>,
    engine: &mut Engine,
    text: &mut Vec<u8>,
    writer: &mut W,
    pages: &[u32],
) -> Result<(), DrawFault>
    requires { text.old.items ≡ [] }
    ensures written { WritesPicture engine.old pages.now result (W.contents writer.old)
        (W.contents writer.new) }
    ensures caused { IfErr result (λ e. IsDrawCaused e log.new) }
{
    match draw_asked(engine, alloc, pages, text) {
        Ok(()) => {}
        Err(fault) => return Err(fault_of(fault)),
    }
    match close(log, text, writer, Ok(())) {
        Ok(()) => Ok(()),
        Err(fault) => Err(DrawFault::Script(fault)),
    }
}

/// Does lines behind the first, and draws the table as it is then.
fn draw_from<R: Read, W: Write>(
    alloc: Global,
    log: &mut IoLog<R, W>,
    engine: &mut Engine,
    pending: &mut Pending,
    reader: &mut R,
    reply: &mut Reply,
    text: &mut Vec<u8>,
    writer: &mut W,
    most: u32,
    pages: &[u32],
) -> Result<(), DrawFault>
    ensures drawn { IfSome (R.remaining reader.old)
        (λ input. DrawsFrom engine.old most pages.now result (pending.old ++ input)
        (W.contents writer.old) (W.contents writer.new)) }
    ensures caused { IfErr result (λ e. IsDrawCaused e log.new) }
{
    match do_lines(
        alloc, log, engine, pending, reader, reply, text, writer, most,
    ) {
        Ok(()) => {}
        Err(fault) => return Err(fault),
    }
    text.clear();
    write_picture(alloc, log, engine, text, writer, pages)
}

fn draw_logged<R: Read, W: Write>(
    alloc: Global,
    log: &mut IoLog<R, W>,
    reader: &mut R,
    writer: &mut W,
    most: u32,
    pages: &[u32],
) -> Result<(), DrawFault>
    ensures outcome { IfSome (R.remaining reader.old)
        (λ input. DrawOutcome most pages.now result input
        (W.contents writer.old) (W.contents writer.new)) }
    ensures caused { IfErr result (λ e. IsDrawCaused e log.new) }
{
    let mut text = Vec::new(alloc);
    let mut pending = match Pending::new(alloc) {
        Ok(pending) => pending,
        Err(refused) => return Err(no_memory(refused)),
    };
    let mut engine = match first_line(alloc, log, &mut pending, reader, &mut text, writer) {
        Ok(engine) => engine,
        Err(fault) => return Err(DrawFault::Script(fault)),
    };
    let mut reply = Reply::Done;
    draw_from(
        alloc,
        log,
        &mut engine,
        &mut pending,
        reader,
        &mut reply,
        &mut text,
        writer,
        most,
        pages,
    )
}

/// Reads a script with looks, up to so many lines behind the first, and writes the picture of the table as it is then. It shows the
/// pages of these numbers, or all where there is none. Where there is a fault nothing is written, but by a writer that gives up.
pub fn draw<R: Read, W: Write>(
    alloc: Global,
    reader: &mut R,
    writer: &mut W,
    most: u32,
    pages: &[u32],
) -> (Result<(), DrawFault>, IoLog<R, W>)
    ensures outcome { IfSome (R.remaining reader.old)
        (λ input. DrawOutcome most pages.now result.0 input
        (W.contents writer.old) (W.contents writer.new)) }
    ensures caused { IfErr result.0 (λ e. IsDrawCaused e result.1) }
{
    let mut log = IoLog::new();
    let drawn = draw_logged(alloc, &mut log, reader, writer, most, pages);
    (drawn, log)
}
