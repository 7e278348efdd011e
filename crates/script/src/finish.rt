//! A vacuum that is finished by one line.

ghost use Rattle.std.specs.Prelude.{List};
ghost use Rattle.calls.specs.declared.vacuum.Piece.{Piece};
ghost use Rattle.script.specs.Script.{finished, Moves};

use session_core::{Engine, Reply, Step};

// Does steps of the vacuum until one does no work, 2^64 - 1 at most. The reply of the last is put in the place of an earlier one.
#[inline(never)]
pub(crate) fn finish_vacuum(engine: &mut Engine, reply: &mut Reply)
    ensures { (pieces : List Piece) × Moves engine.old (finished pieces reply.new) engine.new }
{
    engine.step_into(Step::VacuumStep, reply);
    for _ in 1..u64::MAX {
        let Reply::Worked(_) = reply else {
            return;
        };
        engine.step_into(Step::VacuumStep, reply);
    }
}
