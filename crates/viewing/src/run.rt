//! A script with looks, from its first line to its end.

ghost use Rattle.std.specs.Prelude.{◌≡◌, ◌++◌, IfSome, IfOk, IfErr, OnOk};
ghost use Rattle.std.specs.Bool.{OnTrue, OnFalse};
ghost use Rattle.script.specs.Refusals.{IsCaused};
ghost use Rattle.viewing.specs.Viewing.{line_noted, ViewOutcome};
ghost use Rattle.viewing.specs.Steps.{DoesView, NotesView, IsNoView, ViewAdvances};

use crate::looks::show_look;
use script::{
    Front, IoLog, Pending, ShellFault, close, do_line, first_line, next_line, write_if_full,
};
use script_text::{RefusedGrowth, extend, push};
use session_core::{Engine, Reply};
use std::alloc::Global;
use std::io::{Read, Write};
use view_text::look_at;

/// Does what a line asks for, a script's or a look, and adds its answer; false where it is neither, and then nothing is done.
pub fn do_view(
    alloc: Global,
    engine: &mut Engine,
    reply: &mut Reply,
    text: &mut Vec<u8>,
    line: &[u8],
) -> Result<bool, RefusedGrowth>
    ensures done { IfOk result
        (λ b. OnTrue b (DoesView line.now engine.old engine.new text.old.items text.new.items)) }
    ensures bad { IfOk result (λ b. OnFalse b (IsNoView line.now)) }
    ensures same { IfOk result (λ b. OnFalse b (text.new.items ≡ text.old.items)) }
{
    if do_line(alloc, engine, reply, text, line)? {
        return Ok(true);
    }
    match look_at(line) {
        Some(look) => {
            show_look(alloc, text, engine, look)?;
            Ok(true)
        }
        None => Ok(false),
    }
}

// In a journal, adds the line before its answer.
fn note(text: &mut Vec<u8>, notes: bool, line: &[u8]) -> Result<(), RefusedGrowth>
    ensures { OnOk result (text.new.items ≡ text.old.items ++ line_noted notes line.now) }
{
    if notes {
        extend(text, b"> ")?;
        extend(text, line)?;
        push(text, b'\n')
    } else {
        Ok(())
    }
}

// As above, with the line noted before its answer in a journal.
fn do_noted(
    alloc: Global,
    engine: &mut Engine,
    reply: &mut Reply,
    text: &mut Vec<u8>,
    notes: bool,
    line: &[u8],
) -> Result<bool, RefusedGrowth>
    ensures done { IfOk result
        (λ b. OnTrue b
        (NotesView notes line.now engine.old engine.new text.old.items text.new.items)) }
    ensures bad { IfOk result (λ b. OnFalse b (IsNoView line.now)) }
    ensures same { IfOk result (λ b. OnFalse b (text.new.items ≡ text.old.items)) }
{
    let before = text.len();
    note(text, notes, line)?;
    if do_view(alloc, engine, reply, text, line)? {
        return Ok(true);
    }
    text.truncate(before);
    Ok(false)
}

// Does the lines behind the first, up to the end of the script or its first bad line. Lines have numbers of 64 bits: a script that
// needs more of them ends with a fault of its own.
fn run_lines<R: Read, W: Write>(
    alloc: Global,
    log: &mut IoLog<R, W>,
    engine: &mut Engine,
    pending: &mut Pending,
    reader: &mut R,
    text: &mut Vec<u8>,
    writer: &mut W,
    notes: bool,
) -> Result<(), ShellFault>
    ensures advances { ViewAdvances notes engine.old (R.remaining reader.old)
        (W.contents writer.old) (W.contents writer.new) pending.old text.old.items result }
    ensures caused { IfErr result (λ e. IsCaused e log.new) }
{
    let mut reply = Reply::Done;
    for number in 2..u64::MAX {
        let next = match next_line(log, pending, reader, text, writer) {
            Ok(next) => next,
            Err(fault) => return Err(fault),
        };
        let n = match next {
            Front::Line(n) => n,
            Front::Bad => return close(log, text, writer, Err(ShellFault::BadLine(number))),
            Front::End => return close(log, text, writer, Ok(())),
        };
        match do_noted(
            alloc,
            engine,
            &mut reply,
            text,
            notes,
            &pending.as_slice()[..n],
        ) {
            Ok(true) => {}
            Ok(false) => return close(log, text, writer, Err(ShellFault::BadLine(number))),
            Err(refused) => return Err(log.no_memory(refused)),
        }
        pending.consume(n + 1);
        if let Err(fault) = write_if_full(log, text, writer) {
            return Err(fault);
        }
    }
    Err(ShellFault::TooManyLines)
}

// Reads a script, and writes the answers to its lines, all through the log.
fn run_logged<R: Read, W: Write>(
    alloc: Global,
    log: &mut IoLog<R, W>,
    reader: &mut R,
    writer: &mut W,
    notes: bool,
) -> Result<(), ShellFault>
    ensures outcome { IfSome (R.remaining reader.old)
        (λ input. ViewOutcome notes result input (W.contents writer.old)
        (W.contents writer.new)) }
    ensures caused { IfErr result (λ e. IsCaused e log.new) }
{
    let mut text = Vec::new(alloc);
    let mut pending = match Pending::new(alloc) {
        Ok(pending) => pending,
        Err(refused) => return Err(log.no_memory(refused)),
    };
    let mut engine = match first_line(alloc, log, &mut pending, reader, &mut text, writer) {
        Ok(engine) => engine,
        Err(fault) => return Err(fault),
    };
    run_lines(
        alloc,
        log,
        &mut engine,
        &mut pending,
        reader,
        &mut text,
        writer,
        notes,
    )
}

/// Reads a script with looks, and writes the answers to its lines; as a journal, with each line before its answer. The log, which is
/// made here, says which call was refused, as that of a script does.
pub fn run_views<R: Read, W: Write>(
    alloc: Global,
    reader: &mut R,
    writer: &mut W,
    notes: bool,
) -> (Result<(), ShellFault>, IoLog<R, W>)
    ensures outcome { IfSome (R.remaining reader.old)
        (λ input. ViewOutcome notes result.0 input (W.contents writer.old)
        (W.contents writer.new)) }
    ensures caused { IfErr result.0 (λ e. IsCaused e result.1) }
{
    let mut log = IoLog::new();
    let ended = run_logged(alloc, &mut log, reader, writer, notes);
    (ended, log)
}
