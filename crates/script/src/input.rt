//! The bytes that were read and are not used yet.

ghost use Rattle.std.specs.Prelude.{◌≡◌, ◌+◌, ◌-◌, ◌<◌, ◌≤◌, ◌==◌, [], length, take, drop, position, Ok, IfOk, IfSome, OnErr, IfErr};
ghost use Rattle.std.specs.Io.KnownBytes.{Keeps, Consumes, IsAtEnd};
ghost use Rattle.page_layout.specs.declared.sizes.TheConstants.{PAGE_BYTES};
ghost use Rattle.script.specs.Pieces.{TakesText};
ghost use Rattle.script.specs.Refusals.{IsRefused};

use crate::fault::ShellFault;
use crate::io_log::{IoLog, is_interruption};
use script_text::{RefusedGrowth, buffer};
use std::alloc::Global;
use std::io::Read;
use std::marker::Model;

/// Bytes that were read and not used yet, from `start` to `end` of a buffer that never grows.
#[derive(Drop)]
pub struct Pending {
    bytes: Vec<u8>,
    start: usize,
    end: usize,
}

impl Model for Pending {
    ghost use Rattle.std.specs.Prelude.{◌-◌, ℕ, List, length, take, drop};
    ghost use Rattle.script.specs.Pieces.{LiesInBuffer};

    ghost Value = { List ℕ };

    ghost view = { λ p. take (p.end - p.start) (drop p.start p.bytes.items) };

    ghost invariant = { λ p. LiesInBuffer p.start p.end (length p.bytes.items) };
}

// Reads once, and again as long as the read is interrupted.
fn read_some<R: Read, W>(
    log: &mut IoLog<R, W>,
    reader: &mut R,
    buf: &mut [u8],
) -> Result<usize, ShellFault>
    ensures bound { IfOk result (λ n. n ≤ length buf.new) }
    ensures bytes { IfOk result
        (λ n. Consumes (R.remaining reader.old) (R.remaining reader.new) (take n buf.new)) }
    ensures end { IfOk result (λ n. n ≡ 0 → 0 < length buf.new → IsAtEnd (R.remaining reader.new)) }
    ensures err { OnErr result (Keeps (R.remaining reader.old) (R.remaining reader.new)) }
    ensures fault { IfErr result (λ e. IsRefused e log.new) }
{
    while log.may_try() {
        match log.read(reader, buf) {
            Ok(n) => return Ok(n),
            Err(e) => {
                if !is_interruption(&e) {
                    return Err(ShellFault::Input);
                }
            }
        }
    }
    Err(ShellFault::Input)
}

impl Pending {
    /// Nothing was read yet.
    pub fn new(alloc: Global) -> Result<Pending, RefusedGrowth>
        ensures { IfOk result (λ p. p ≡ []) }
    {
        Ok(Pending {
            bytes: buffer(alloc)?,
            start: 0,
            end: 0,
        })
    }

    pub(crate) fn len(&self) -> usize
        ensures { result ≡ length self.now }
    {
        self.end - self.start
    }

    /// The bytes.
    pub fn as_slice(&self) -> &[u8]
        ensures { result.now ≡ self.now }
    {
        &self.bytes[self.start..self.end]
    }

    // Where the first line feed is.
    pub(crate) fn line_feed(&self) -> Option<usize>
        ensures at { result ≡ position (λ b. b == 10) self.now }
        ensures within { IfSome result (λ n. n < length self.now) }
    {
        line_feed_in(self.as_slice())
    }

    /// Drops the first bytes.
    pub fn consume(&mut self, n: usize)
        requires { n ≤ length self.old }
        ensures { self.new ≡ drop n self.old }
    {
        self.start += n;
    }

    // Reads more, and puts it behind what is there. 0 bytes come only at the end.
    pub(crate) fn refill<R: Read, W>(
        &mut self,
        log: &mut IoLog<R, W>,
        reader: &mut R,
    ) -> Result<usize, ShellFault>
        requires { length self.old ≤ PAGE_BYTES }
        ensures takes { TakesText (R.remaining reader.old)
            (R.remaining reader.new) self.old self.new }
        ensures grows { IfOk result (λ n. length self.new ≡ length self.old + n) }
        ensures end { result ≡ Ok 0 → IsAtEnd (R.remaining reader.new) }
        ensures fault { IfErr result (λ e. IsRefused e log.new) }
    {
        let len = self.end - self.start;
        let result = read_behind(log, self.bytes.as_mut_slice(), self.start, self.end, reader);
        self.start = 0;
        self.end = len;
        let n = result?;
        self.end = len + n;
        Ok(n)
    }
}

// Moves a part to the front, and reads behind it.
fn read_behind<R: Read, W>(
    log: &mut IoLog<R, W>,
    bytes: &mut [u8],
    start: usize,
    end: usize,
    reader: &mut R,
) -> Result<usize, ShellFault>
    requires order { start ≤ end }
    requires within { end ≤ length bytes.old }
    ensures moved { take (end - start) bytes.new ≡ take (end - start) (drop start bytes.old) }
    ensures room { IfOk result (λ n. (end - start) + n ≤ length bytes.new) }
    ensures bytes { IfOk result
        (λ n. Consumes (R.remaining reader.old) (R.remaining reader.new)
        (take n (drop (end - start) bytes.new))) }
    ensures end { IfOk result
        (λ n. n ≡ 0 → end - start < length bytes.new → IsAtEnd (R.remaining reader.new)) }
    ensures err { OnErr result (Keeps (R.remaining reader.old) (R.remaining reader.new)) }
    ensures fault { IfErr result (λ e. IsRefused e log.new) }
{
    let len = end - start;
    bytes.copy_within(start..end, 0);
    read_some(log, reader, &mut bytes[len..])
}

fn line_feed_in(bytes: &[u8]) -> Option<usize>
    ensures at { result ≡ position (λ b. b == 10) bytes.now }
    ensures within { IfSome result (λ n. n < length bytes.now) }
{
    bytes.iter().position(|b| *b == b'\n')
}
