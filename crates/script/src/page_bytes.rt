//! A page that is read whole, and what its bytes say.

ghost use Rattle.std.specs.Prelude.{◌≡◌, ◌<◌, ◌⊎◌, [], length, IfSome, IfErr, OnOk};
ghost use Rattle.std.specs.Io.KnownBytes.{IsAtEnd};
ghost use Rattle.page_layout.specs.declared.sizes.TheConstants.{PAGE_BYTES as PAGE_LENGTH};
ghost use Rattle.script.specs.Inspected.{PageOutcome};
ghost use Rattle.script.specs.Pieces.{TakesText};
ghost use Rattle.script.specs.Refusals.{IsRefused, IsPageCaused};

use crate::fault::ShellFault;
use crate::input::Pending;
use crate::io_log::IoLog;
use crate::output::write_out;
use crate::page_text::tell_bytes;
use page_slots::{PAGE_BYTES, check_page};
use std::alloc::Global;
use std::io::{Read, Write};

// Reads until there is more than a page has, or nothing more comes.
fn read_page<R: Read, W>(
    log: &mut IoLog<R, W>,
    pending: &mut Pending,
    reader: &mut R,
) -> Result<(), ShellFault>
    ensures takes { TakesText (R.remaining reader.old)
        (R.remaining reader.new) pending.old pending.new }
    ensures end { OnOk result
        ((PAGE_LENGTH < length pending.new) ⊎ IsAtEnd (R.remaining reader.new)) }
    ensures fault { IfErr result (λ e. IsRefused e log.new) }
{
    while pending.len() <= PAGE_BYTES {
        if pending.refill(log, reader)? == 0 {
            return Ok(());
        }
    }
    Ok(())
}

// Writes what the bytes of a page say.
fn write_page<R, W: Write>(
    alloc: Global,
    log: &mut IoLog<R, W>,
    bytes: &[u8],
    writer: &mut W,
) -> Result<(), ShellFault>
    ensures outcome { PageOutcome result bytes.now (W.contents writer.old) (W.contents writer.new) }
    ensures caused { IfErr result (λ e. IsPageCaused e log.new) }
{
    let page = match check_page(bytes) {
        Ok(page) => page,
        Err(fault) => return Err(ShellFault::BadPage(fault)),
    };
    let mut text = Vec::new(alloc);
    if let Err(refused) = tell_bytes(&mut text, &page, bytes) {
        return Err(log.no_memory(refused));
    }
    write_out(log, &mut text, writer)
}

// Reads a page, and writes what its bytes say, all through the log.
fn inspect_logged<R: Read, W: Write>(
    alloc: Global,
    log: &mut IoLog<R, W>,
    reader: &mut R,
    writer: &mut W,
) -> Result<(), ShellFault>
    ensures outcome { IfSome (R.remaining reader.old)
        (λ input. PageOutcome result input (W.contents writer.old) (W.contents writer.new)) }
    ensures caused { IfErr result (λ e. IsPageCaused e log.new) }
{
    let mut pending = match Pending::new(alloc) {
        Ok(pending) => pending,
        Err(refused) => return Err(log.no_memory(refused)),
    };
    match read_page(log, &mut pending, reader) {
        Ok(()) => write_page(alloc, log, pending.as_slice(), writer),
        Err(fault) => Err(fault),
    }
}

/// Reads a page, 8192 bytes and not one more, and writes what its bytes say; or writes nothing, and answers the first fault that
/// they have. The log says which call was refused, as that of [`run_script`](crate::run_script) does.
pub fn inspect_script<R: Read, W: Write>(
    alloc: Global,
    reader: &mut R,
    writer: &mut W,
) -> (Result<(), ShellFault>, IoLog<R, W>)
    ensures outcome { IfSome (R.remaining reader.old)
        (λ input. PageOutcome result.0 input (W.contents writer.old) (W.contents writer.new)) }
    ensures caused { IfErr result.0 (λ e. IsPageCaused e result.1) }
{
    let mut log = IoLog::new();
    let ended = inspect_logged(alloc, &mut log, reader, writer);
    (ended, log)
}
