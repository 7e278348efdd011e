//! The answers to many steps.

ghost use Rattle.std.specs.Prelude.{◌≡◌, ◌+◌, ◌<◌, IfOk, OnErr, length, take};
ghost use Rattle.refinement.specs.Allowed.{IsRun};
ghost use Rattle.plain_history.specs.Plain.{world_of};
ghost use Rattle.judge.specs.Runs.{HasJudged, StopsForMemory};

use crate::judge::{Judge, Ruling};
use calls::{Reply, Step};
use following::NoMemory;

/// Judges the answers to the steps, one after another, up to the first that is not allowed. How many were.
pub fn judge_all(judge: &mut Judge, steps: &[Step], replies: &[Reply]) -> Result<usize, NoMemory>
    requires { length steps.now ≡ length replies.now }
    ensures run { IfOk result
        (λ n. HasJudged (world_of judge.old) steps.now replies.now n (world_of judge.new)) }
    ensures first { IfOk result
        (λ n. n < length steps.now
        → ¬ IsRun (world_of judge.old) (take (n + 1) steps.now) (take (n + 1) replies.now)) }
    ensures lacks { OnErr result
        (StopsForMemory (world_of judge.old) steps.now replies.now (world_of judge.new)) }
{
    for i in 0..steps.len() {
        match judge.judge(&steps[i], &replies[i]) {
            Ok(Ruling::Allowed) => {}
            Ok(Ruling::Broken) => return Ok(i),
            Err(NoMemory) => return Err(NoMemory),
        }
    }
    Ok(steps.len())
}
