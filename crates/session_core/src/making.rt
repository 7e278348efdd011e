//! The making of an index, which no vacuum runs beside.

ghost use Rattle.std.specs.Prelude.{◌≡◌, ◌↔◌, IsTrue, IsSome};
ghost use Rattle.session_steps.specs.Making.{LacksIndexOn};
ghost use Rattle.calls.specs.declared.step.Step.TheVariants as step;
ghost use Rattle.vacuum_engine.specs.Exact.{EngineExact};

use crate::engine::Engine;
use calls::{Refusal, Reply};

impl Engine {
    /// True where a vacuum bars the making of the index by a column: one runs, and the index is not there and may be made.
    fn vacuum_bars_index(&self, column: u8) -> bool
        ensures { IsTrue result
            ↔ (IsSome self.now.engine.vacuum × LacksIndexOn self.now.engine.core column) }
    {
        self.vacuum.is_some() && self.core.lacks_index(column)
    }

    /// Makes the index by a column, of the rows that are current, unless it is there. Sessions that are open by snapshot may not scan
    /// it. Refusals in order: NoSuchIndex; VacuumRunning, which notes in that vacuum that it is not alone; IndexBusy, while an open
    /// session has an id; NoMemory, which changes nothing.
    pub(crate) fn create_index(&mut self, column: u8, reply: &mut Reply)
        ensures exact { EngineExact self.old.engine (step.CreateIndex column)
            reply.new self.new.engine }
        ensures waits { self.new.waits ≡ self.old.waits }
    {
        let barred = self.vacuum_bars_index(column);
        self.disturb(false);
        if barred {
            *reply = Reply::Refused(Refusal::VacuumRunning);
            return;
        }
        if let Err(refusal) = self.core.make_index(column) {
            *reply = Reply::Refused(refusal);
            return;
        }
        *reply = Reply::Done;
    }
}
