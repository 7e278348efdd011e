//! Writing, by a loop over `write`.

ghost use Rattle.std.specs.Prelude.{◌≡◌, ◌<◌, ◌≤◌, [], List, ℕ, length, take, IfOk, OnOk, OnErr, IfErr};
ghost use Rattle.std.specs.Io.KnownBytes.{Appends};
ghost use Rattle.script.specs.Pieces.{GivesText};
ghost use Rattle.script.specs.Refusals.{IsRefused};

use crate::fault::ShellFault;
use crate::io_log::{IoLog, is_interruption};
use std::io::Write;

// Writes once, and again as long as the write is interrupted. A writer that takes nothing has refused.
fn write_some<R, W: Write>(
    log: &mut IoLog<R, W>,
    writer: &mut W,
    rest: &[u8],
) -> Result<usize, ShellFault>
    requires { 0 < length rest.now }
    ensures bound { IfOk result (λ n. n ≤ length rest.now) }
    ensures some { IfOk result (λ n. 0 < n) }
    ensures bytes { IfOk result
        (λ n. Appends (W.contents writer.old) (W.contents writer.new) (take n rest.now)) }
    ensures err { OnErr result (Appends (W.contents writer.old) (W.contents writer.new) []) }
    ensures fault { IfErr result (λ e. IsRefused e log.new) }
{
    while log.may_try() {
        match log.write(writer, rest) {
            Ok(0) => return Err(ShellFault::Output),
            Ok(n) => return Ok(n),
            Err(e) => {
                if !is_interruption(&e) {
                    return Err(ShellFault::Output);
                }
            }
        }
    }
    Err(ShellFault::Output)
}

// Writes the text and empties it. After a fault a beginning of it was written.
pub(crate) fn write_out<R, W: Write>(
    log: &mut IoLog<R, W>,
    text: &mut Vec<u8>,
    writer: &mut W,
) -> Result<(), ShellFault>
    ensures ok { OnOk result (text.new.items ≡ []) }
    ensures all { OnOk result
        (Appends (W.contents writer.old) (W.contents writer.new) text.old.items) }
    ensures prefix { (left : List ℕ)
        × GivesText (W.contents writer.old) (W.contents writer.new) text.old.items left }
    ensures fault { IfErr result (λ e. IsRefused e log.new) }
{
    let mut written = 0;
    while written < text.len() {
        written += write_some(log, writer, &text[written..])?;
    }
    text.clear();
    Ok(())
}
