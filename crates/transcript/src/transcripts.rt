//! A transcript from its first line to its end.

ghost use Rattle.std.specs.Prelude.{◌≡◌, [], IfErr, IfSome};
ghost use Rattle.transcript.specs.Transcripts.{JudgesText, TranscriptOutcome};
ghost use Rattle.transcript.specs.Judging.{IsFirstLine};
ghost use Rattle.transcript.specs.Failures.{IsOfFailure};

use crate::begins::{Begins, Until};
use crate::exchanges::{judge_all_exchanges, judge_exchanges};
use crate::failures::FailureLog;
use crate::fault::Fault;
use calls::Settings;
use judge::Judge;
use reply_text::cut_at;
use script_text::settings_at;
use std::alloc::Global;
use std::io::{Read, Write};

// The settings of the first line, if they are in range, and where the next line begins.
fn first_line(text: &[u8]) -> Option<(Settings, usize)>
    ensures { IsFirstLine text.now result }
{
    let Some((line, _)) = cut_at(text, b'\n') else {
        return None;
    };
    let Some(settings) = settings_at(line) else {
        return None;
    };
    if let Some(_) = settings.fault() {
        return None;
    }
    Some((settings, line.len() + 1))
}

// Judges a transcript's text.
fn judge_text(
    alloc: Global,
    begins: Begins,
    until: Until,
    text: &[u8],
    out: &mut Vec<u8>,
) -> Result<bool, Fault>
    requires { out.old.items ≡ [] }
    ensures { JudgesText begins until result text.now out.new.items }
{
    let Some((settings, from)) = first_line(text) else {
        return Err(Fault::BadLine(1));
    };
    let mut judge = match Judge::new(alloc, settings.indexed) {
        Ok(judge) => judge,
        Err(_) => return Err(Fault::NoMemory),
    };
    match until {
        Until::FirstWrong => judge_exchanges(alloc, begins, &mut judge, text, from, out),
        Until::End => judge_all_exchanges(alloc, begins, &mut judge, text, from, out),
    }
}

// Reads a transcript, and writes what is said of it, all through the log.
fn judge_logged<R: Read, W: Write>(
    alloc: Global,
    begins: Begins,
    until: Until,
    log: &mut FailureLog<R, W>,
    reader: &mut R,
    writer: &mut W,
) -> Result<bool, Fault>
    ensures outcome { IfSome (R.remaining reader.old)
        (λ input. TranscriptOutcome begins until result input
        (W.contents writer.old) (W.contents writer.new)) }
    ensures caused { IfErr result (λ e. IsOfFailure e log.new) }
{
    let mut text = Vec::new(alloc);
    if let Err(fault) = log.read_all(reader, &mut text) {
        return Err(fault);
    }
    let mut out = Vec::new(alloc);
    let allowed = match judge_text(alloc, begins, until, text.as_slice(), &mut out) {
        Ok(allowed) => allowed,
        Err(fault) => return Err(fault),
    };
    match log.write_all(writer, out.as_slice()) {
        Ok(()) => Ok(allowed),
        Err(fault) => Err(fault),
    }
}

/// Reads a transcript, and writes that all its answers are allowed, or tells the first that is not, or each. True where all are. The log,
/// which is made here, says who failed. A fault of the reader is answered only where the reader answered an error. One of the writer is
/// answered only where the writer did, took nothing, or was interrupted 2^64 - 1 times in a row.
pub fn judge_transcript<R: Read, W: Write>(
    alloc: Global,
    begins: Begins,
    until: Until,
    reader: &mut R,
    writer: &mut W,
) -> (Result<bool, Fault>, FailureLog<R, W>)
    ensures outcome { IfSome (R.remaining reader.old)
        (λ input. TranscriptOutcome begins until result.0 input
        (W.contents writer.old) (W.contents writer.new)) }
    ensures caused { IfErr result.0 (λ e. IsOfFailure e result.1) }
{
    let mut log = FailureLog::new();
    let judged = judge_logged(alloc, begins, until, &mut log, reader, writer);
    (judged, log)
}
