//! A talk with somebody who types lines.

ghost use Rattle.std.specs.Prelude.{IfOk, IfErr};
ghost use Rattle.script.specs.Refusals.{IsRefused};
ghost use Rattle.viewing.specs.Talking.{IsTyped};

use crate::help::{tell_expected, tell_heap_expected, tell_help, tell_too_long};
use crate::run::do_view;
use script::{Front, IoLog, Pending, ShellFault, close, next_line};
use script_text::{RefusedGrowth, extend, settings_at};
use session_core::{Engine, Reply, Settings};
use std::alloc::Global;
use std::io::{Read, Write};

// What stands before a line that is typed.
const PROMPT: &[u8] = b"> ";

// What was typed.
enum Typed {
    // A line of so many bytes.
    Line(usize),
    // One that is too long, or has no end: it was passed over.
    Long,
    // No more.
    End,
}

// Passes over a line that is too long, up to its end or that of the input.
fn pass_over<R: Read, W: Write>(
    log: &mut IoLog<R, W>,
    pending: &mut Pending,
    reader: &mut R,
    text: &mut Vec<u8>,
    writer: &mut W,
) -> Result<(), ShellFault>
    ensures { IfErr result (λ e. IsRefused e log.new) }
{
    for _ in 0..u64::MAX {
        let bytes = pending.as_slice();
        let count = bytes.len();
        if let Some(n) = bytes.iter().position(|b| *b == b'\n') {
            pending.consume(n + 1);
            return Ok(());
        }
        pending.consume(count);
        match next_line(log, pending, reader, text, writer) {
            Ok(Front::Line(n)) => {
                pending.consume(n + 1);
                return Ok(());
            }
            Ok(Front::Bad) => {}
            Ok(Front::End) => return Ok(()),
            Err(fault) => return Err(fault),
        }
    }
    Ok(())
}

// Asks for a line.
fn ask<R: Read, W: Write>(
    log: &mut IoLog<R, W>,
    pending: &mut Pending,
    reader: &mut R,
    text: &mut Vec<u8>,
    writer: &mut W,
) -> Result<Typed, ShellFault>
    ensures line { IfOk result (λ typed. IsTyped typed pending.new) }
    ensures refused { IfErr result (λ e. IsRefused e log.new) }
{
    if let Err(refused) = extend(text, PROMPT) {
        return Err(log.no_memory(refused));
    }
    match next_line(log, pending, reader, text, writer) {
        Ok(Front::Line(n)) => Ok(Typed::Line(n)),
        Ok(Front::Bad) => match pass_over(log, pending, reader, text, writer) {
            Ok(()) => Ok(Typed::Long),
            Err(fault) => Err(fault),
        },
        Ok(Front::End) => Ok(Typed::End),
        Err(fault) => Err(fault),
    }
}

// The settings that a line spells, if they are in range. Else what was expected is told, or help.
fn settings_or_told(text: &mut Vec<u8>, line: &[u8]) -> Result<Option<Settings>, RefusedGrowth> {
    if line == b"help".as_slice() {
        tell_help(text)?;
        return Ok(None);
    }
    match settings_at(line) {
        Some(settings) => {
            if let Some(_) = settings.fault() {
                tell_heap_expected(text)?;
                return Ok(None);
            }
            Ok(Some(settings))
        }
        None => {
            tell_heap_expected(text)?;
            Ok(None)
        }
    }
}

// Does a line, or tells what was expected, or help.
fn do_or_tell(
    alloc: Global,
    engine: &mut Engine,
    reply: &mut Reply,
    text: &mut Vec<u8>,
    line: &[u8],
) -> Result<(), RefusedGrowth> {
    if line == b"help".as_slice() {
        return tell_help(text);
    }
    if do_view(alloc, engine, reply, text, line)? {
        return Ok(());
    }
    tell_expected(text, line)
}

// The engine that a first line asks for, once one does; none where no more is typed.
fn first_typed<R: Read, W: Write>(
    alloc: Global,
    log: &mut IoLog<R, W>,
    pending: &mut Pending,
    reader: &mut R,
    text: &mut Vec<u8>,
    writer: &mut W,
) -> Result<Option<Engine>, ShellFault>
    ensures { IfErr result (λ e. IsRefused e log.new) }
{
    for _ in 0..u64::MAX {
        let n = match ask(log, pending, reader, text, writer) {
            Ok(Typed::Line(n)) => n,
            Ok(Typed::Long) => {
                if let Err(refused) = tell_too_long(text) {
                    return Err(log.no_memory(refused));
                }
                continue;
            }
            Ok(Typed::End) => return Ok(None),
            Err(fault) => return Err(fault),
        };
        let found = settings_or_told(text, &pending.as_slice()[..n]);
        pending.consume(n + 1);
        match found {
            Ok(Some(settings)) => return log.new_engine(alloc, settings),
            Ok(None) => {}
            Err(refused) => return Err(log.no_memory(refused)),
        }
    }
    Ok(None)
}

// Does the lines that are typed behind the first.
fn talk_on<R: Read, W: Write>(
    alloc: Global,
    log: &mut IoLog<R, W>,
    engine: &mut Engine,
    pending: &mut Pending,
    reader: &mut R,
    text: &mut Vec<u8>,
    writer: &mut W,
) -> Result<(), ShellFault>
    ensures { IfErr result (λ e. IsRefused e log.new) }
{
    let mut reply = Reply::Done;
    for _ in 0..u64::MAX {
        let told = match ask(log, pending, reader, text, writer) {
            Ok(Typed::Line(n)) => {
                let told = do_or_tell(alloc, engine, &mut reply, text, &pending.as_slice()[..n]);
                pending.consume(n + 1);
                told
            }
            Ok(Typed::Long) => tell_too_long(text),
            Ok(Typed::End) => return Ok(()),
            Err(fault) => return Err(fault),
        };
        if let Err(refused) = told {
            return Err(log.no_memory(refused));
        }
    }
    Ok(())
}

// Reads lines that are typed, and answers each at once, all through the log.
fn talk_logged<R: Read, W: Write>(
    alloc: Global,
    log: &mut IoLog<R, W>,
    reader: &mut R,
    writer: &mut W,
) -> Result<(), ShellFault>
    ensures { IfErr result (λ e. IsRefused e log.new) }
{
    let mut text = Vec::new(alloc);
    let mut pending = match Pending::new(alloc) {
        Ok(pending) => pending,
        Err(refused) => return Err(log.no_memory(refused)),
    };
    let mut engine = match first_typed(alloc, log, &mut pending, reader, &mut text, writer) {
        Ok(Some(engine)) => engine,
        Ok(None) => return end(log, &mut text, writer),
        Err(fault) => return Err(fault),
    };
    match talk_on(
        alloc,
        log,
        &mut engine,
        &mut pending,
        reader,
        &mut text,
        writer,
    ) {
        Ok(()) => end(log, &mut text, writer),
        Err(fault) => Err(fault),
    }
}

// Writes what is to be written, and a line feed behind the last prompt.
fn end<R, W: Write>(
    log: &mut IoLog<R, W>,
    text: &mut Vec<u8>,
    writer: &mut W,
) -> Result<(), ShellFault>
    ensures { IfErr result (λ e. IsRefused e log.new) }
{
    match extend(text, b"\n") {
        Ok(()) => close(log, text, writer, Ok(())),
        Err(refused) => Err(log.no_memory(refused)),
    }
}

/// Reads lines that somebody types, and answers each at once. Before each stands a prompt. A wrong line is answered by what was
/// expected, and changes nothing. `help` lists all lines. The first line makes the heap. The log says which call was refused.
pub fn talk<R: Read, W: Write>(
    alloc: Global,
    reader: &mut R,
    writer: &mut W,
) -> (Result<(), ShellFault>, IoLog<R, W>)
    ensures { IfErr result.0 (λ e. IsRefused e result.1) }
{
    let mut log = IoLog::new();
    let ended = talk_logged(alloc, &mut log, reader, writer);
    (ended, log)
}
