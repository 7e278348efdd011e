//! The lines of a script, as they are read and done.

ghost use Rattle.std.specs.Prelude.{◌≡◌, ◌++◌, [], OnOk, IfOk, IfErr, IfSome};
ghost use Rattle.std.specs.Io.KnownBytes.{Appends};
ghost use Rattle.script.specs.Next.{IsNext};
ghost use Rattle.script.specs.Pieces.{TakesText};
ghost use Rattle.stories.specs.DrawOutcomes.{IsReadFault, RunsTo, IsDrawCaused};

use crate::draw_fault::{DrawFault, no_memory};
use script::{Front, IoLog, Pending, ShellFault, next_line};
use session_core::{Engine, Reply};
use std::alloc::Global;
use std::io::{Read, Write};
use viewing::do_view;

/// Finds the next line. Nothing is written.
pub fn next_of<R: Read, W: Write>(
    alloc: Global,
    log: &mut IoLog<R, W>,
    pending: &mut Pending,
    reader: &mut R,
    writer: &mut W,
) -> Result<Front, DrawFault>
    ensures takes { TakesText (R.remaining reader.old)
        (R.remaining reader.new) pending.old pending.new }
    ensures quiet { Appends (W.contents writer.old) (W.contents writer.new) [] }
    ensures line { IfOk result (λ next. IsNext next pending.new (R.remaining reader.new)) }
    ensures fault { IfErr result (λ e. IsReadFault e log.new) }
{
    let mut nothing = Vec::new(alloc);
    match next_line(log, pending, reader, &mut nothing, writer) {
        Ok(next) => Ok(next),
        Err(fault) => Err(DrawFault::Script(fault)),
    }
}

/// Does lines behind the first, at most so many. Their answers are of no use.
pub(crate) fn do_lines<R: Read, W: Write>(
    alloc: Global,
    log: &mut IoLog<R, W>,
    engine: &mut Engine,
    pending: &mut Pending,
    reader: &mut R,
    reply: &mut Reply,
    answer: &mut Vec<u8>,
    writer: &mut W,
    most: u32,
) -> Result<(), DrawFault>
    ensures runs { IfSome (R.remaining reader.old)
        (λ input. RunsTo engine.old engine.new most (pending.old ++ input) result) }
    ensures quiet { Appends (W.contents writer.old) (W.contents writer.new) [] }
    ensures caused { IfErr result (λ e. IsDrawCaused e log.new) }
{
    for done in 0..most {
        let next = match next_of(alloc, log, pending, reader, writer) {
            Ok(next) => next,
            Err(fault) => return Err(fault),
        };
        let number = u64::from(done) + 2;
        let n = match next {
            Front::Line(n) => n,
            Front::Bad => return Err(DrawFault::Script(ShellFault::BadLine(number))),
            Front::End => return Ok(()),
        };
        match do_view(alloc, engine, reply, answer, &pending.as_slice()[..n]) {
            Ok(true) => {}
            Ok(false) => return Err(DrawFault::Script(ShellFault::BadLine(number))),
            Err(refused) => return Err(no_memory(refused)),
        }
        pending.consume(n + 1);
        answer.clear();
    }
    Ok(())
}
