//! The log of what the outside refused.

ghost use Rattle.std.specs.Prelude.{[], ◌≡◌, ◌≢◌, ◌↔◌, ◌+◌, ℕ, Ok, OnErr, OnOk, IfOk, IfErr, MatchOption, IsTrue, false, true, ◌<◌, length, nat_lt};
ghost use Rattle.std.specs.Io.KnownBytes.{ReadConsumes, WriteAppends};
ghost use Rattle.std.specs.Io.{ReadsAtMost, WritesAtMost};
ghost use Rattle.std.specs.IoError.{error_kind};
ghost use Rattle.std.specs.declared.io.ErrorKind.TheVariants.{Interrupted};
ghost use Rattle.calls.specs.Words.{AreSettings};
ghost use Rattle.script.specs.Engine.{IsNewWaiting};
ghost use Rattle.script.specs.Refusals.{IsOneMore, IsRefused};
ghost use Rattle.script.specs.Threads.{lists_for, with_work};
ghost use Rattle.shared_heap.specs.Books.{IsBookOf};
ghost use Rattle.shared_heap.specs.Merge.{IsMerge, lines_in};

use crate::fault::ShellFault;
use script_text::{RefusedGrowth, WorkerStep};
use session_core::{Engine, Settings, SettingsFault};
use shared_heap::{Book, Line, run_threads};
use std::alloc::Global;
use std::io;
use std::io::{ErrorKind, Read, Write};
use std::marker::{Model, PhantomData};
use std::sync::Wait;
use std::thread::Threads;

/// Notes whether the last read, the last write, and any growth were refused. The shell calls its reader and its writer and makes
/// its engine through this alone, and hands it each growth that was refused. So a fault can be told from one that the shell made
/// up. Nothing else marks it, it can't be copied, and it takes calls of one type of reader and one of writer, so that no other
/// reader or writer marks it.
///
/// A call that was interrupted refused nothing and is made again, as long as fewer than 2^64 - 1 in a row were interrupted. No
/// function may try for ever.
#[derive(Drop)]
pub struct IoLog<R, W> {
    // the last read answered an error that is no interruption
    input: bool,
    // the last write answered such an error, or took nothing of what there was
    output: bool,
    // how many calls in a row, up to the last, were interrupted
    interrupted: u64,
    // a growth was refused
    memory: bool,
    reader: PhantomData<R>,
    writer: PhantomData<W>,
}

impl<R, W> Model for IoLog<R, W> {
    ghost use Rattle.script.specs.Refusals.{Refusals};

    ghost Value = { Refusals };

    ghost view = { λ w. record {
      input = w.input;
      output = w.output;
      interrupted = w.interrupted;
      memory = w.memory;
    } };
}

// True where an error says that the call was interrupted.
pub(crate) fn is_interruption(e: &io::Error) -> bool
    ensures { IsTrue result ↔ (error_kind e.now ≡ Interrupted) }
{
    e.kind() == ErrorKind::Interrupted
}

impl<R, W> IoLog<R, W> {
    /// Nothing was refused yet.
    pub fn new() -> IoLog<R, W>
        ensures input { result.input ≡ false }
        ensures output { result.output ≡ false }
        ensures interrupted { result.interrupted ≡ 0 }
        ensures memory { result.memory ≡ false }
    {
        IoLog {
            input: false,
            output: false,
            interrupted: 0,
            memory: false,
            reader: PhantomData,
            writer: PhantomData,
        }
    }

    /// True where the last read answered an error that is no interruption.
    pub fn input(&self) -> bool
        ensures { result ≡ self.now.input }
    {
        self.input
    }

    /// True where the last write answered such an error, or took nothing of what there was.
    pub fn output(&self) -> bool
        ensures { result ≡ self.now.output }
    {
        self.output
    }

    /// True where a growth was refused.
    pub fn memory(&self) -> bool
        ensures { result ≡ self.now.memory }
    {
        self.memory
    }

    /// True where a call may be made, also one that was interrupted.
    pub(crate) fn may_try(&self) -> bool
        ensures { result ≡ nat_lt self.now.interrupted 18446744073709551615 }
    {
        self.interrupted < u64::MAX
    }

    /// Notes that a growth was refused.
    pub fn no_memory(&mut self, _refused: RefusedGrowth) -> ShellFault
        ensures fault { result ≡ ShellFault.NoMemory }
        ensures memory { self.new.memory ≡ true }
        ensures input { self.new.input ≡ self.old.input }
        ensures output { self.new.output ≡ self.old.output }
        ensures interrupted { self.new.interrupted ≡ self.old.interrupted }
    {
        self.memory = true;
        ShellFault::NoMemory
    }

    /// A new engine of these settings, where they are in range.
    pub fn new_engine(
        &mut self,
        alloc: Global,
        settings: Settings,
    ) -> Result<Option<Engine>, ShellFault>
        ensures made { IfOk result
            (λ made. MatchOption made (AreSettings settings → ⊥)
            (λ e. IsNewWaiting settings e × AreSettings settings)) }
        ensures valid { OnErr result (AreSettings settings) }
        ensures fault { IfErr result (λ e. IsRefused e self.new) }
        ensures input { self.new.input ≡ self.old.input }
        ensures output { self.new.output ≡ self.old.output }
        ensures interrupted { self.new.interrupted ≡ self.old.interrupted }
    {
        match Engine::new(alloc, settings) {
            Ok(engine) => Ok(Some(engine)),
            Err(fault) => match fault {
                SettingsFault::NoMemory => {
                    self.memory = true;
                    Err(ShellFault::NoMemory)
                }
                _ => Ok(None),
            },
        }
    }

    /// An empty list for each of the eight workers.
    pub(crate) fn new_lists(&mut self, alloc: Global) -> Result<Vec<Vec<Line>>, ShellFault>
        ensures empty { IfOk result (λ lists. lines_in lists.items ≡ lists_for []) }
        ensures fault { IfErr result (λ e. IsRefused e self.new) }
    {
        let lists = [
            Vec::new(alloc),
            Vec::new(alloc),
            Vec::new(alloc),
            Vec::new(alloc),
            Vec::new(alloc),
            Vec::new(alloc),
            Vec::new(alloc),
            Vec::new(alloc),
        ];
        match Vec::from_array(alloc, lists) {
            Ok(lists) => Ok(lists),
            Err(_) => {
                self.memory = true;
                Err(ShellFault::NoMemory)
            }
        }
    }

    /// Adds a step to its worker's list.
    pub(crate) fn keep_step(
        &mut self,
        lists: &mut Vec<Vec<Line>>,
        new: WorkerStep,
    ) -> Result<(), ShellFault>
        requires { new.worker < length lists.old.items }
        ensures kept { OnOk result
            (lines_in lists.new.items ≡ with_work (lines_in lists.old.items) new) }
        ensures fault { IfErr result (λ e. IsRefused e self.new) }
    {
        let WorkerStep { worker, wait, step } = new;
        match lists[usize::from(worker)].push(Line { wait, step }) {
            Ok(()) => Ok(()),
            Err(_) => {
                self.memory = true;
                Err(ShellFault::NoMemory)
            }
        }
    }

    /// Has workers do their lists, each in a thread of its own. The settings are in range, so that only memory can be refused.
    pub(crate) fn run_threads<H: Threads + Wait + Sync>(
        &mut self,
        rt: &H,
        alloc: Global,
        settings: Settings,
        lists: Vec<Vec<Line>>,
    ) -> Result<Book, ShellFault>
        requires { AreSettings settings }
        ensures made { IfOk result (λ book. IsBookOf settings book) }
        ensures merge { IfOk result (λ book. IsMerge (lines_in lists.items) book.journal) }
        ensures fault { IfErr result (λ e. IsRefused e self.new) }
    {
        match run_threads(rt, alloc, settings, lists) {
            Ok(book) => Ok(book),
            Err(_) => {
                self.memory = true;
                Err(ShellFault::NoMemory)
            }
        }
    }
}

impl<R: Read, W> IoLog<R, W> {
    /// Reads once.
    pub(crate) fn read(&mut self, reader: &mut R, buf: &mut [u8]) -> io::Result<usize>
        requires { self.old.interrupted < 18446744073709551615 }
        ensures bound { ReadsAtMost result buf.new }
        ensures bytes { ReadConsumes (R.remaining reader.old)
            (R.remaining reader.new) result buf.new }
        ensures taken { OnOk result (self.new.input ≡ false) }
        ensures refused { IfErr result (λ e. error_kind e ≢ Interrupted → self.new.input ≡ true) }
        ensures again { IfErr result (λ e. error_kind e ≡ Interrupted → self.new.input ≡ false) }
        ensures called { OnOk result (self.new.interrupted ≡ 0) }
        ensures counted { IfErr result
            (λ e. error_kind e ≡ Interrupted → IsOneMore self.old self.new) }
        ensures ended { IfErr result (λ e. error_kind e ≢ Interrupted → self.new.interrupted ≡ 0) }
        ensures output { self.new.output ≡ self.old.output }
        ensures memory { self.new.memory ≡ self.old.memory }
    {
        match reader.read(buf) {
            Ok(n) => {
                self.input = false;
                self.interrupted = 0;
                Ok(n)
            }
            Err(e) => {
                if is_interruption(&e) {
                    self.input = false;
                    self.interrupted += 1;
                } else {
                    self.input = true;
                    self.interrupted = 0;
                }
                Err(e)
            }
        }
    }
}

impl<R, W: Write> IoLog<R, W> {
    /// Writes once. Where there is nothing to write, it is no refusal that nothing was taken.
    pub(crate) fn write(&mut self, writer: &mut W, buf: &[u8]) -> io::Result<usize>
        requires { self.old.interrupted < 18446744073709551615 }
        ensures bound { WritesAtMost result buf.now }
        ensures bytes { WriteAppends (W.contents writer.old)
            (W.contents writer.new) result buf.now }
        ensures taken { (n : ℕ) → result ≡ Ok n → 0 < n → self.new.output ≡ false }
        ensures nothing { result ≡ Ok 0 → 0 < length buf.now → self.new.output ≡ true }
        ensures empty { OnOk result (length buf.now ≡ 0 → self.new.output ≡ false) }
        ensures refused { IfErr result (λ e. error_kind e ≢ Interrupted → self.new.output ≡ true) }
        ensures again { IfErr result (λ e. error_kind e ≡ Interrupted → self.new.output ≡ false) }
        ensures called { OnOk result (self.new.interrupted ≡ 0) }
        ensures counted { IfErr result
            (λ e. error_kind e ≡ Interrupted → IsOneMore self.old self.new) }
        ensures ended { IfErr result (λ e. error_kind e ≢ Interrupted → self.new.interrupted ≡ 0) }
        ensures input { self.new.input ≡ self.old.input }
        ensures memory { self.new.memory ≡ self.old.memory }
    {
        match writer.write(buf) {
            Ok(n) => {
                self.output = n == 0 && !buf.is_empty();
                self.interrupted = 0;
                Ok(n)
            }
            Err(e) => {
                if is_interruption(&e) {
                    self.output = false;
                    self.interrupted += 1;
                } else {
                    self.output = true;
                    self.interrupted = 0;
                }
                Err(e)
            }
        }
    }
}
