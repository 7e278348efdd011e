//! A script for threads, from its first line to the last entry of the journal.

ghost use Rattle.std.specs.Prelude.{◌≡◌, ◌++◌, [], IfSome, IfErr, OnOk};
ghost use Rattle.std.specs.Io.KnownBytes.{Appends};
ghost use Rattle.shared_heap.specs.Merge.{lines_in};
ghost use Rattle.script.specs.Script.{WritesBeginning};
ghost use Rattle.script.specs.Refusals.{IsRefused, IsCaused};
ghost use Rattle.script.specs.Reading.{ReadsLines};
ghost use Rattle.script.specs.Threads.{ThreadsOutcome, lists_for, lines_of_entry, journal_text};

use crate::fault::ShellFault;
use crate::input::Pending;
use crate::io_log::IoLog;
use crate::output::write_out;
use crate::run::{Front, first_settings, next_line, write_if_full};
use script_text::{RefusedGrowth, tell_reply, tell_step, worker_step_at};
use session_core::{Reply, Step};
use shared_heap::Line;
use std::alloc::Global;
use std::io::{Read, Write};
use std::sync::Wait;
use std::thread::Threads;

// Reads the lines behind the first into the workers' lists, up to the end of the script or its first bad line. The text is empty:
// nothing is written.
fn read_lines<R: Read, W: Write>(
    alloc: Global,
    log: &mut IoLog<R, W>,
    lists: &mut Vec<Vec<Line>>,
    pending: &mut Pending,
    reader: &mut R,
    text: &mut Vec<u8>,
    writer: &mut W,
) -> Result<(), ShellFault>
    requires none { text.old.items ≡ [] }
    requires new { lines_in lists.old.items ≡ lists_for [] }
    ensures reads { ReadsLines (R.remaining reader.old)
        pending.old (lines_in lists.new.items) result }
    ensures quiet { Appends (W.contents writer.old) (W.contents writer.new) [] }
    ensures none { OnOk result (text.new.items ≡ []) }
    ensures caused { IfErr result (λ e. IsCaused e log.new) }
{
    for number in 2..u64::MAX {
        let next = match next_line(log, pending, reader, text, writer) {
            Ok(next) => next,
            Err(fault) => return Err(fault),
        };
        let n = match next {
            Front::Line(n) => n,
            Front::Bad => return Err(ShellFault::BadLine(number)),
            Front::End => return Ok(()),
        };
        let read = match worker_step_at(alloc, &pending.as_slice()[..n]) {
            Ok(read) => read,
            Err(refused) => return Err(log.no_memory(refused)),
        };
        let Some(step) = read else {
            return Err(ShellFault::BadLine(number));
        };
        if let Err(fault) = log.keep_step(lists, step) {
            return Err(fault);
        }
        pending.consume(n + 1);
    }
    Err(ShellFault::TooManyLines)
}

// Adds the lines of an entry of the journal.
fn tell_entry(text: &mut Vec<u8>, entry: &(Step, Reply)) -> Result<(), RefusedGrowth>
    ensures { OnOk result (text.new.items ≡ text.old.items ++ lines_of_entry entry.now) }
{
    tell_step(text, &entry.0)?;
    tell_reply(text, &entry.1)
}

// Writes the journal.
fn write_journal<R, W: Write>(
    log: &mut IoLog<R, W>,
    journal: &[(Step, Reply)],
    text: &mut Vec<u8>,
    writer: &mut W,
) -> Result<(), ShellFault>
    requires { text.old.items ≡ [] }
    ensures all { OnOk result
        (Appends (W.contents writer.old) (W.contents writer.new) (journal_text journal.now)) }
    ensures prefix { WritesBeginning (W.contents writer.old)
        (W.contents writer.new) (journal_text journal.now) }
    ensures fault { IfErr result (λ e. IsRefused e log.new) }
{
    for entry in journal {
        if let Err(refused) = tell_entry(text, entry) {
            return Err(log.no_memory(refused));
        }
        if let Err(fault) = write_if_full(log, text, writer) {
            return Err(fault);
        }
    }
    write_out(log, text, writer)
}

// Reads a script for threads, has the workers do it, and writes the journal, all through the log.
fn threads_logged<R: Read, W: Write, H: Threads + Wait + Sync>(
    rt: &H,
    alloc: Global,
    log: &mut IoLog<R, W>,
    reader: &mut R,
    writer: &mut W,
) -> Result<(), ShellFault>
    ensures outcome { IfSome (R.remaining reader.old)
        (λ input. ThreadsOutcome result input (W.contents writer.old) (W.contents writer.new)) }
    ensures caused { IfErr result (λ e. IsCaused e log.new) }
{
    let mut text = Vec::new(alloc);
    let mut pending = match Pending::new(alloc) {
        Ok(pending) => pending,
        Err(refused) => return Err(log.no_memory(refused)),
    };
    let settings = match first_settings(log, &mut pending, reader, &mut text, writer) {
        Ok(settings) => settings,
        Err(fault) => return Err(fault),
    };
    let mut lists = match log.new_lists(alloc) {
        Ok(lists) => lists,
        Err(fault) => return Err(fault),
    };
    if let Err(fault) = read_lines(
        alloc,
        log,
        &mut lists,
        &mut pending,
        reader,
        &mut text,
        writer,
    ) {
        return Err(fault);
    }
    let book = match log.run_threads(rt, alloc, settings, lists) {
        Ok(book) => book,
        Err(fault) => return Err(fault),
    };
    write_journal(log, book.journal(), &mut text, writer)
}

/// Reads a script for threads, all lines before any runs. Then each worker does its lines in their order, and when all have ended the
/// journal is written: for each entry its step, and what it was answered. It never returns where a line that waits is answered Busy for
/// good. The log is that of [`run_script`](crate::run_script).
pub fn threads_script<R: Read, W: Write, H: Threads + Wait + Sync>(
    rt: &H,
    alloc: Global,
    reader: &mut R,
    writer: &mut W,
) -> (Result<(), ShellFault>, IoLog<R, W>)
    ensures outcome { IfSome (R.remaining reader.old)
        (λ input. ThreadsOutcome result.0 input (W.contents writer.old) (W.contents writer.new)) }
    ensures caused { IfErr result.0 (λ e. IsCaused e result.1) }
{
    let mut log = IoLog::new();
    let ended = threads_logged(rt, alloc, &mut log, reader, writer);
    (ended, log)
}
