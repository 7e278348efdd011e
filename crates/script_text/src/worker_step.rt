//! A line of a script for threads.

ghost use Rattle.std.specs.Prelude.{IfOk, ◌≡◌};
ghost use Rattle.std.specs.Option.{option_map};
ghost use Rattle.script_text.specs.Reading.{cut as cut_of};
ghost use Rattle.script_text.specs.Workers.{SpellsWorker, waits_in, words_at as words_at_of, worker_at as worker_at_of};

use crate::growth::RefusedGrowth;
use crate::line::{Line, read_line};
use crate::words::{cut, number_then};
use calls::Step;
use std::alloc::Global;

/// A step that a worker of a script for threads is to do.
#[derive(Debug, Drop)]
pub struct WorkerStep {
    /// The worker, from 0 to 7.
    pub worker: u8,
    /// True where the step is done again for as long as it is answered Busy.
    pub wait: bool,
    /// The step.
    pub step: Step,
}

// True where the first word says that the step waits; and the words of the step.
fn wait_at(words: &[u8]) -> (bool, &[u8])
    ensures { (result.0, result.1.now) ≡ waits_in (cut_of words.now) words.now }
{
    let Some((word, rest)) = cut(words) else {
        return (false, words);
    };
    if word == b"wait".as_slice() {
        (true, rest)
    } else {
        (false, words)
    }
}

// Reads the step in the words behind the worker's number.
#[tactic(auto, unfolding(crate::specs::Workers::words_at))]
fn words_at(alloc: Global, worker: u8, words: &[u8]) -> Result<Option<WorkerStep>, RefusedGrowth>
    ensures { IfOk result (λ o. o ≡ words_at_of worker words.now) }
{
    let (wait, words) = wait_at(words);
    match read_line(alloc, words)? {
        Some(Line::Do(step)) => Ok(Some(WorkerStep { worker, wait, step })),
        _ => Ok(None),
    }
}

#[tactic(auto, unfolding(crate::specs::Workers::worker_at))]
fn read_worker(alloc: Global, line: &[u8]) -> Result<Option<WorkerStep>, RefusedGrowth>
    ensures { IfOk result (λ o. o ≡ worker_at_of line.now) }
{
    if line.is_empty() || line[0] != b'@' {
        return Ok(None);
    }
    let Some((worker, words)) = number_then(&line[1..], 7) else {
        return Ok(None);
    };
    words_at(alloc, worker as u8, words)
}

/// Reads the step in a line of a script for threads, if it is allowed. The line has no line feed. ([`read_worker`] says
/// what is read. This says what is spelled.)
pub fn worker_step_at(alloc: Global, line: &[u8]) -> Result<Option<WorkerStep>, RefusedGrowth>
    ensures { IfOk result (λ o. SpellsWorker line.now o) }
{
    read_worker(alloc, line)
}
