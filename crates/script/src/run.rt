//! A script from its first line to its end.

ghost use Rattle.std.specs.Prelude.{◌≡◌, ◌<◌, ◌++◌, List, ℕ, [], length, IfSome, IfOk, IfErr, OnOk, IsErrAnd, ◌⊎◌};
ghost use Rattle.std.specs.Bool.{OnTrue, OnFalse};
ghost use Rattle.std.specs.Io.KnownBytes.{Appends};
ghost use Rattle.calls.specs.Words.{AreSettings};
ghost use Rattle.calls.specs.declared.settings.Settings.{Settings};
ghost use Rattle.script.specs.Engine.{IsNewWaiting};
ghost use Rattle.script_text.specs.Grammar.{LineFits, spelling, heading, with_feed};
ghost use Rattle.script.specs.Script.{ScriptOutcome, WritesBeginning};
ghost use Rattle.script.specs.Refusals.{IsRefused, IsCaused};
ghost use Rattle.script.specs.Pieces.{TakesText, GivesText};
ghost use Rattle.script.specs.Next.{IsNext};
ghost use Rattle.script.specs.Steps.{Advances, DoesLine, Uses, MatchesHeading};
ghost use Rattle.script_text.specs.declared.line.Line.{Line};
ghost use Rattle.script.specs.declared.run.TheConstants.{FULL};
ghost use Rattle.tuple_header.specs.declared.version.TheConstants.{COLUMNS};

use crate::fault::ShellFault;
use crate::finish::finish_vacuum;
use crate::input::Pending;
use crate::inspect::{show_ids, show_index, show_page};
use crate::io_log::IoLog;
use crate::output::write_out;
use script_text::{Line, MOST_LINE_BYTES, RefusedGrowth, line_at, settings_at, tell_reply};
use session_core::{Engine, Reply, Settings};
use std::alloc::Global;
use std::io::{Read, Write};

/// Text is written out once there is this much, though more could be read without waiting.
pub const FULL: usize = 32768;

/// What stands at the front of what was read.
#[derive(Drop)]
pub enum Front {
    /// A line of so many bytes, and behind it its line feed.
    Line(usize),
    /// No line, or one that is too long.
    Bad,
    /// Nothing: all was read.
    End,
}

/// Finds the next line. Before it reads, it writes what is to be written, so that nobody waits for an answer.
#[inline(always)]
pub fn next_line<R: Read, W: Write>(
    log: &mut IoLog<R, W>,
    pending: &mut Pending,
    reader: &mut R,
    text: &mut Vec<u8>,
    writer: &mut W,
) -> Result<Front, ShellFault>
    ensures takes { TakesText (R.remaining reader.old)
        (R.remaining reader.new) pending.old pending.new }
    ensures gives { IfOk result
        (λ _. GivesText (W.contents writer.old)
        (W.contents writer.new) text.old.items text.new.items) }
    ensures prefix { (left : List ℕ)
        × GivesText (W.contents writer.old) (W.contents writer.new) text.old.items left }
    ensures line { IfOk result (λ next. IsNext next pending.new (R.remaining reader.new)) }
    ensures fault { IfErr result (λ e. IsRefused e log.new) }
{
    while pending.len() <= MOST_LINE_BYTES {
        if let Some(n) = pending.line_feed() {
            return Ok(if n <= MOST_LINE_BYTES {
                Front::Line(n)
            } else {
                Front::Bad
            });
        }
        write_out(log, text, writer)?;
        if pending.refill(log, reader)? == 0 {
            return Ok(if pending.len() == 0 {
                Front::End
            } else {
                Front::Bad
            });
        }
    }
    match pending.line_feed() {
        Some(n) if n <= MOST_LINE_BYTES => Ok(Front::Line(n)),
        _ => Ok(Front::Bad),
    }
}

/// Does what a line asks for, and adds its answer; false where the line isn't allowed, and then nothing is done. The reply to a step is
/// put in the place of an earlier one.
pub fn do_line(
    alloc: Global,
    engine: &mut Engine,
    reply: &mut Reply,
    text: &mut Vec<u8>,
    line: &[u8],
) -> Result<bool, RefusedGrowth>
    ensures done { IfOk result
        (λ b. OnTrue b (DoesLine line.now engine.old engine.new text.old.items text.new.items)) }
    ensures bad { IfOk result
        (λ b. OnFalse b ((l : Line) → LineFits l → line.now ≡ spelling l → ⊥)) }
    ensures same { IfOk result (λ b. OnFalse b (text.new.items ≡ text.old.items)) }
    ensures kept { IfOk result (λ b. OnFalse b (engine.new ≡ engine.old)) }
{
    match line_at(alloc, line)? {
        Some(Line::Do(step)) => {
            engine.step_into(step, reply);
            tell_reply(text, reply)?;
            Ok(true)
        }
        Some(Line::VacuumFinish) => {
            finish_vacuum(engine, reply);
            tell_reply(text, reply)?;
            Ok(true)
        }
        Some(Line::Ids) => {
            show_ids(text, engine)?;
            Ok(true)
        }
        Some(Line::Page(number)) => {
            show_page(text, engine, number)?;
            Ok(true)
        }
        Some(Line::Entries(number)) => {
            show_index(text, engine, number)?;
            Ok(true)
        }
        None => Ok(false),
    }
}

/// Writes what is to be written, and gives the result.
pub fn close<R, W: Write>(
    log: &mut IoLog<R, W>,
    text: &mut Vec<u8>,
    writer: &mut W,
    end: Result<(), ShellFault>,
) -> Result<(), ShellFault>
    ensures { ((result ≡ end)
        × Appends (W.contents writer.old) (W.contents writer.new) text.old.items)
        ⊎ (IsErrAnd result (λ e. IsRefused e log.new)
        × WritesBeginning (W.contents writer.old) (W.contents writer.new) text.old.items) }
{
    match write_out(log, text, writer) {
        Ok(()) => end,
        Err(fault) => Err(fault),
    }
}

/// Writes the text where it has come to a block, so that less than one is kept.
pub fn write_if_full<R, W: Write>(
    log: &mut IoLog<R, W>,
    text: &mut Vec<u8>,
    writer: &mut W,
) -> Result<(), ShellFault>
    ensures ok { OnOk result
        (GivesText (W.contents writer.old) (W.contents writer.new) text.old.items text.new.items) }
    ensures less { OnOk result (length text.new.items < FULL) }
    ensures prefix { WritesBeginning (W.contents writer.old)
        (W.contents writer.new) text.old.items }
    ensures fault { IfErr result (λ e. IsRefused e log.new) }
{
    if text.len() < FULL {
        return Ok(());
    }
    write_out(log, text, writer)
}

// Does the lines behind the first, up to the end of the script or its first bad line. Lines have numbers of 64 bits: a script that
// needs more of them ends with a fault of its own.
fn run_lines<R: Read, W: Write>(
    alloc: Global,
    log: &mut IoLog<R, W>,
    engine: &mut Engine,
    pending: &mut Pending,
    reader: &mut R,
    text: &mut Vec<u8>,
    writer: &mut W,
) -> Result<(), ShellFault>
    ensures advances { Advances engine.old (R.remaining reader.old) (W.contents writer.old)
        (W.contents writer.new) pending.old text.old.items result }
    ensures caused { IfErr result (λ e. IsCaused e log.new) }
{
    let mut reply = Reply::Done;
    for number in 2..u64::MAX {
        let next = match next_line(log, pending, reader, text, writer) {
            Ok(next) => next,
            Err(fault) => return Err(fault),
        };
        let n = match next {
            Front::Line(n) => n,
            Front::Bad => return close(log, text, writer, Err(ShellFault::BadLine(number))),
            Front::End => return close(log, text, writer, Ok(())),
        };
        match do_line(alloc, engine, &mut reply, text, &pending.as_slice()[..n]) {
            Ok(true) => {}
            Ok(false) => return close(log, text, writer, Err(ShellFault::BadLine(number))),
            Err(refused) => return Err(log.no_memory(refused)),
        }
        pending.consume(n + 1);
        if let Err(fault) = write_if_full(log, text, writer) {
            return Err(fault);
        }
    }
    Err(ShellFault::TooManyLines)
}

// The settings of the first line, which is used.
pub(crate) fn first_settings<R: Read, W: Write>(
    log: &mut IoLog<R, W>,
    pending: &mut Pending,
    reader: &mut R,
    text: &mut Vec<u8>,
    writer: &mut W,
) -> Result<Settings, ShellFault>
    requires { (pending.old ≡ []) × (text.old.items ≡ []) }
    ensures begins { IfOk result
        (λ s. AreSettings s × (length s.indexed ≡ COLUMNS)
        × Uses (R.remaining reader.old) (R.remaining reader.new) []
        (with_feed (heading s)) pending.new) }
    ensures quiet { Appends (W.contents writer.old) (W.contents writer.new) [] }
    ensures none { OnOk result (text.new.items ≡ []) }
    ensures fails { IfErr result (λ e. MatchesHeading e (R.remaining reader.old)) }
    ensures caused { IfErr result (λ e. IsCaused e log.new) }
{
    let next = match next_line(log, pending, reader, text, writer) {
        Ok(next) => next,
        Err(fault) => return Err(fault),
    };
    let Front::Line(n) = next else {
        return Err(ShellFault::BadLine(1));
    };
    let Some(settings) = settings_at(&pending.as_slice()[..n]) else {
        return Err(ShellFault::BadLine(1));
    };
    if let Some(_) = settings.fault() {
        return Err(ShellFault::BadLine(1));
    }
    pending.consume(n + 1);
    Ok(settings)
}

/// Makes the engine that the first line asks for, and uses that line.
pub fn first_line<R: Read, W: Write>(
    alloc: Global,
    log: &mut IoLog<R, W>,
    pending: &mut Pending,
    reader: &mut R,
    text: &mut Vec<u8>,
    writer: &mut W,
) -> Result<Engine, ShellFault>
    requires { (pending.old ≡ []) × (text.old.items ≡ []) }
    ensures begins { IfOk result
        (λ e. (s : Settings) × IsNewWaiting s e × AreSettings s × (length s.indexed ≡ COLUMNS)
        × Uses (R.remaining reader.old) (R.remaining reader.new) []
        (with_feed (heading s)) pending.new) }
    ensures quiet { Appends (W.contents writer.old) (W.contents writer.new) [] }
    ensures none { OnOk result (text.new.items ≡ []) }
    ensures fails { IfErr result (λ e. MatchesHeading e (R.remaining reader.old)) }
    ensures caused { IfErr result (λ e. IsCaused e log.new) }
{
    let settings = match first_settings(log, pending, reader, text, writer) {
        Ok(settings) => settings,
        Err(fault) => return Err(fault),
    };
    match log.new_engine(alloc, settings) {
        Ok(Some(engine)) => Ok(engine),
        // the settings are in range, so this never comes
        Ok(None) => Err(ShellFault::BadLine(1)),
        Err(fault) => Err(fault),
    }
}

// Reads a script, and writes the answers to its lines, all through the log.
fn run_logged<R: Read, W: Write>(
    alloc: Global,
    log: &mut IoLog<R, W>,
    reader: &mut R,
    writer: &mut W,
) -> Result<(), ShellFault>
    ensures outcome { IfSome (R.remaining reader.old)
        (λ input. ScriptOutcome result input (W.contents writer.old) (W.contents writer.new)) }
    ensures caused { IfErr result (λ e. IsCaused e log.new) }
{
    let mut text = Vec::new(alloc);
    let mut pending = match Pending::new(alloc) {
        Ok(pending) => pending,
        Err(refused) => return Err(log.no_memory(refused)),
    };
    let mut engine = match first_line(alloc, log, &mut pending, reader, &mut text, writer) {
        Ok(engine) => engine,
        Err(fault) => return Err(fault),
    };
    run_lines(
        alloc,
        log,
        &mut engine,
        &mut pending,
        reader,
        &mut text,
        writer,
    )
}

/// Reads a script, and writes the answers to its lines. The log, which is made here, says which call was refused. A fault of the reader is
/// answered only where its last read answered an error that is no interruption. One of the writer is, only where its last write answered
/// such an error, or took nothing of what there was. Either is also answered where 2^64 - 1 calls in a row were interrupted. Want of
/// memory is, only where a growth of the shell was refused.
pub fn run_script<R: Read, W: Write>(
    alloc: Global,
    reader: &mut R,
    writer: &mut W,
) -> (Result<(), ShellFault>, IoLog<R, W>)
    ensures outcome { IfSome (R.remaining reader.old)
        (λ input. ScriptOutcome result.0 input (W.contents writer.old) (W.contents writer.new)) }
    ensures caused { IfErr result.0 (λ e. IsCaused e result.1) }
{
    let mut log = IoLog::new();
    let ended = run_logged(alloc, &mut log, reader, writer);
    (ended, log)
}
