//! The lines of a worker.

ghost use Rattle.std.specs.Prelude.{◌≡◌, IfOk};

use session_core::Step;
use std::alloc::{AllocError, Global};

/// A step that a worker is to do.
#[derive(Debug, Drop)]
pub struct WorkerLine {
    /// True where it is done again for as long as it is answered Busy.
    pub wait: bool,
    /// The step.
    pub step: Step,
}

impl WorkerLine {
    /// An equal line.
    pub(crate) fn copy(&self, alloc: Global) -> Result<WorkerLine, AllocError>
        ensures { IfOk result (λ line. line ≡ self.now) }
    {
        Ok(WorkerLine {
            wait: self.wait,
            step: self.step.copy(alloc)?,
        })
    }
}
