//! The first line of a script, and the table that it asks for.

ghost use Rattle.std.specs.Prelude.{◌≡◌, [], length, IfOk, IfErr};
ghost use Rattle.std.specs.Io.KnownBytes.{Appends};
ghost use Rattle.calls.specs.Words.{AreSettings};
ghost use Rattle.script_text.specs.Grammar.{heading, with_feed};
ghost use Rattle.script.specs.Steps.{Uses};
ghost use Rattle.stories.specs.DrawOutcomes.{IsDrawCaused};
ghost use Rattle.stories.specs.Outcomes.{MatchesFirst, MakesTable};
ghost use Rattle.tuple_header.specs.declared.version.TheConstants.{COLUMNS};

use crate::draw_fault::{DrawFault, no_memory};
use crate::lines::next_of;
use script::{Front, IoLog, Pending, ShellFault};
use script_text::{extend, settings_at};
use session_core::{Engine, Settings};
use std::alloc::Global;
use std::io::{Read, Write};

/// The settings of the first line, which is used, and stands in the text then.
fn first_settings<R: Read, W: Write>(
    alloc: Global,
    log: &mut IoLog<R, W>,
    pending: &mut Pending,
    reader: &mut R,
    line: &mut Vec<u8>,
    writer: &mut W,
) -> Result<Settings, DrawFault>
    requires { (pending.old ≡ []) × (line.old.items ≡ []) }
    ensures begins { IfOk result
        (λ s. AreSettings s × (length s.indexed ≡ COLUMNS) × (line.new.items ≡ heading s)
        × Uses (R.remaining reader.old) (R.remaining reader.new) []
        (with_feed (heading s)) pending.new) }
    ensures quiet { Appends (W.contents writer.old) (W.contents writer.new) [] }
    ensures fails { IfErr result (λ e. MatchesFirst e (R.remaining reader.old)) }
    ensures caused { IfErr result (λ e. IsDrawCaused e log.new) }
{
    let next = match next_of(alloc, log, pending, reader, writer) {
        Ok(next) => next,
        Err(fault) => return Err(fault),
    };
    let Front::Line(n) = next else {
        return Err(DrawFault::Script(ShellFault::BadLine(1)));
    };
    let Some(settings) = settings_at(&pending.as_slice()[..n]) else {
        return Err(DrawFault::Script(ShellFault::BadLine(1)));
    };
    if let Some(_) = settings.fault() {
        return Err(DrawFault::Script(ShellFault::BadLine(1)));
    }
    match extend(line, &pending.as_slice()[..n]) {
        Ok(()) => {}
        Err(refused) => return Err(no_memory(refused)),
    }
    pending.consume(n + 1);
    Ok(settings)
}

/// Makes the table that the first line asks for, and uses that line, which stands in the text then.
pub(crate) fn first_of<R: Read, W: Write>(
    alloc: Global,
    log: &mut IoLog<R, W>,
    pending: &mut Pending,
    reader: &mut R,
    line: &mut Vec<u8>,
    writer: &mut W,
) -> Result<Engine, DrawFault>
    requires { (pending.old ≡ []) × (line.old.items ≡ []) }
    ensures begins { IfOk result
        (λ e. MakesTable e line.new.items
        (R.remaining reader.old) (R.remaining reader.new) pending.new) }
    ensures quiet { Appends (W.contents writer.old) (W.contents writer.new) [] }
    ensures fails { IfErr result (λ e. MatchesFirst e (R.remaining reader.old)) }
    ensures caused { IfErr result (λ e. IsDrawCaused e log.new) }
{
    let settings = match first_settings(alloc, log, pending, reader, line, writer) {
        Ok(settings) => settings,
        Err(fault) => return Err(fault),
    };
    match log.new_engine(alloc, settings) {
        Ok(Some(engine)) => Ok(engine),
        // the settings are in range, so this never comes
        Ok(None) => Err(DrawFault::Script(ShellFault::BadLine(1))),
        Err(fault) => Err(DrawFault::Script(fault)),
    }
}
