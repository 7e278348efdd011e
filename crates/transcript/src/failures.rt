//! The log of what failed outside.

ghost use Rattle.std.specs.Prelude.{◌≡◌, ◌<◌, ◌≤◌, ◌++◌, false, length, take, IfErr, IfOk, IfSome, OnErr, OnOk};
ghost use Rattle.std.specs.Io.KnownBytes.{Appends, Keeps};
ghost use Rattle.transcript.specs.Failures.{IsOfReader, IsOfWriter, WritesFront};

use crate::fault::Fault;
use std::io::{ErrorKind, Read, Write};
use std::marker::{Model, PhantomData};

/// Notes whether the reader or the writer failed. A transcript is read and what is said is written through this alone. So a fault of the
/// reader or the writer can be told from one that is made up. Nothing else marks it, and it takes calls of one type of reader and one of
/// writer, so that no other marks it.
#[derive(Drop)]
pub struct FailureLog<R, W> {
    // the reader answered an error
    reader: bool,
    // the writer answered one, or took nothing of what there was
    writer: bool,
    reads: PhantomData<R>,
    writes: PhantomData<W>,
}

impl<R, W> Model for FailureLog<R, W> {
    ghost use Rattle.transcript.specs.Failures.{Failures};

    ghost Value = { Failures };

    ghost view = { λ log. record { reader = log.reader; writer = log.writer } };
}

impl<R, W> FailureLog<R, W> {
    // Nothing has failed yet.
    pub(crate) fn new() -> FailureLog<R, W>
        ensures reader { result.reader ≡ false }
        ensures writer { result.writer ≡ false }
    {
        FailureLog {
            reader: false,
            writer: false,
            reads: PhantomData,
            writes: PhantomData,
        }
    }
}

impl<R: Read, W> FailureLog<R, W> {
    // Reads all that is left.
    pub(crate) fn read_all(&mut self, reader: &mut R, text: &mut Vec<u8>) -> Result<(), Fault>
        ensures text { OnOk result
            (IfSome (R.remaining reader.old)
            (λ input. text.new.items ≡ text.old.items ++ input)) }
        ensures fault { IfErr result (λ e. IsOfReader e self.new) }
    {
        match reader.read_to_end(text) {
            Ok(_) => Ok(()),
            Err(e) if e.kind() == ErrorKind::OutOfMemory => Err(Fault::NoMemory),
            Err(_) => {
                self.reader = true;
                Err(Fault::Input)
            }
        }
    }
}

impl<R, W: Write> FailureLog<R, W> {
    // Writes once, and again as long as the write is interrupted. A writer that takes nothing has failed.
    fn write_some(&mut self, writer: &mut W, rest: &[u8]) -> Result<usize, Fault>
        requires { 0 < length rest.now }
        ensures bound { IfOk result (λ n. n ≤ length rest.now) }
        ensures some { IfOk result (λ n. 0 < n) }
        ensures bytes { IfOk result
            (λ n. Appends (W.contents writer.old) (W.contents writer.new) (take n rest.now)) }
        ensures err { OnErr result (Keeps (W.contents writer.old) (W.contents writer.new)) }
        ensures fault { IfErr result (λ e. IsOfWriter e self.new) }
    {
        for _ in 0..u64::MAX {
            match writer.write(rest) {
                Ok(0) => {
                    self.writer = true;
                    return Err(Fault::Output);
                }
                Ok(n) => return Ok(n),
                Err(e) if e.kind() == ErrorKind::Interrupted => {}
                Err(_) => {
                    self.writer = true;
                    return Err(Fault::Output);
                }
            }
        }
        self.writer = true;
        Err(Fault::Output)
    }

    // Writes the text. After a fault a beginning of it was written.
    pub(crate) fn write_all(&mut self, writer: &mut W, text: &[u8]) -> Result<(), Fault>
        ensures all { OnOk result
            (Appends (W.contents writer.old) (W.contents writer.new) text.now) }
        ensures front { OnErr result
            (WritesFront (W.contents writer.old) (W.contents writer.new) text.now) }
        ensures fault { IfErr result (λ e. IsOfWriter e self.new) }
    {
        let mut written = 0;
        while written < text.len() {
            match self.write_some(writer, &text[written..]) {
                Ok(n) => written += n,
                Err(fault) => return Err(fault),
            }
        }
        Ok(())
    }
}
